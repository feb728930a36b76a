// A table's body in a book: its fields as the bytes state them. Every function takes any bytes: a byte beyond the end counts as 0.
#![tactic(auto)]

ghost use Rattle.std.specs.Prelude.{◌≡◌};
ghost use Rattle.body_bytes.specs.Body.{signed16, power_of, turn_of, row_of, tie_count, mask_of, side_of};

// A number of 16 bits, read as two's complement.
fn signed(n: u16) -> i32
    ensures { result ≡ signed16 n }
{
    i32::from(n.cast_signed())
}

// The power.
pub fn power_of(bs: &[u8]) -> i32
    ensures { result ≡ power_of bs.now }
{
    signed(fields::read_u16(bs, 2))
}

// The turn of slot v.
pub fn turn_of(bs: &[u8], v: u8) -> u8
    ensures { result ≡ turn_of bs.now v }
{
    fields::read_u8(bs, 4 + v as usize)
}

// The row of slot v.
pub fn row_of(bs: &[u8], width: u8, v: u8) -> u64
    ensures { result ≡ row_of width bs.now v }
{
    fields::read_u64(bs, 4 + width as usize + 8 * (v as usize))
}

// The tie count.
pub fn count_of(bs: &[u8], width: u8) -> u8
    ensures { result ≡ tie_count width bs.now }
{
    fields::read_u8(bs, 4 + 9 * (width as usize))
}

// The mask of tie j.
pub fn mask_of(bs: &[u8], width: u8, j: u8) -> u64
    ensures { result ≡ mask_of width bs.now j }
{
    fields::read_u64(bs, 5 + 9 * (width as usize) + 9 * (j as usize))
}

// The r of tie j.
pub fn side_of(bs: &[u8], width: u8, j: u8) -> u8
    ensures { result ≡ side_of width bs.now j }
{
    fields::read_u8(bs, 5 + 9 * (width as usize) + 9 * (j as usize) + 8)
}
