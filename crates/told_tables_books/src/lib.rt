// The call for C that writes a table in lent bytes as a body of a book. Any bytes and any numbers are taken.
#![tactic(auto)]

ghost use Rattle.told_tables_books.specs.Books.{TableWriteTold};

// The body of the table, without its labels, in an area from a start on.
pub fn write(table: &[u8], area: &mut [u8], start: usize, bytes: &mut usize) -> u8
    ensures { TableWriteTold table.now area.old start result bytes.new area.new }
{
    let r = image_read::read(table);
    let refusal = r.refusal;
    if refusal != 0 {
        *bytes = 0;
        return refusal;
    }
    let t = r.state;
    let w = body_write::write(t, area, start);
    let n = w.bytes;
    *bytes = n;
    w.refusal
}
