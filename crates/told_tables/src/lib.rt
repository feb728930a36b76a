// Inner: what the calls for C on a table share: the table that lent bytes hold, and the table that came out of a call, put back as those bytes. Asks of its callers 1,293 bytes where a table is put back, and a normal table where the call was not refused.
#![tactic(auto)]

ghost use Rattle.std.specs.Prelude.{◌≡◌, length};
ghost use Rattle.exact.specs.Refusal.{accepted};
ghost use Rattle.image.specs.Image.{image_size};
ghost use Rattle.table.specs.Normal.{Normal};
ghost use Rattle.table.specs.declared.Table.{Table};
ghost use Rattle.table.specs.declared.Changed.{Changed};
ghost use Rattle.told_tables.specs.Called.{bytes_of, held, Called};
ghost use Rattle.told_tables.specs.Inner.Back.{PutBack};

use image_read::Reading;
use table::{Changed, Table};

// The table that was read.
pub fn held(r: Reading) -> Table
    ensures { result ≡ held r }
{
    Table {
        state: r.state,
        labels: r.labels,
    }
}

// The table's bytes where the number is 0; where it refuses, the bytes stay. Answers the number.
pub fn put_back(area: &mut [u8], t: Table, n: u8) -> u8
    requires { (length area.old ≡ image_size) × (n ≡ accepted → Normal t) }
    ensures { PutBack area.old t n result area.new }
{
    if n != 0 {
        return n;
    }
    image_write::write(area, t.state, t.labels);
    0
}

// A call on the table in the bytes, put back; refused as their reading is, and then as the call is, with the bytes as they were. Answers the number.
pub fn changed<F: FnOnce(Table) -> Changed>(area: &mut [u8], call: F) -> u8
    requires callable { F.IsAlwaysCallable call }
    requires normal { (t : Table) (c : Changed) → F.post call t c → c.refusal ≡ accepted → Normal c.table }
    ensures { Called area.old (F.post call) (λ (c : Changed). c.refusal) (λ c. bytes_of c.table) area.old result area.new }
{
    let r = image_read::read(area);
    let refusal = r.refusal;
    if refusal != 0 {
        return refusal;
    }
    let c = call(held(r));
    put_back(area, c.table, c.refusal)
}
