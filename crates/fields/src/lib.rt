// Little-endian numbers, read from lent bytes and written at the front of a lent part. A byte beyond the end reads as 0; where a part is too short for a number, nothing is written.
#![tactic(auto)]

ghost use Rattle.std.specs.Prelude.{◌≡◌, [], ◌∷◌, ◌+◌, ◌≤◌, ◌<◌, length};
ghost use Rattle.fields.specs.Bytes.{byte_at, le, front};
ghost use Rattle.fields.specs.Inner.Bytes.{Stated, Put};
ghost use Rattle.fields.specs.Listed.{listed};

// The byte at a place, and 0 beyond the end.
pub fn read_u8(s: &[u8], at: usize) -> u8
    ensures { result ≡ byte_at s.now at }
{
    if at < s.len() { s[at] } else { 0 }
}

// The byte i behind a place, which may lie beyond every number of 64 bits.
fn byte_behind(s: &[u8], at: usize, i: usize) -> u8
    ensures { result ≡ byte_at s.now (at + i) }
{
    if s.len() <= at || s.len() - at <= i {
        return 0;
    }
    s[at + i]
}

// The N bytes at a place; bytes beyond the end count as 0.
fn bytes_at<const N: usize>(s: &[u8], at: usize) -> [u8; N]
    ensures { result ≡ listed N (λ i. byte_at s.now (at + i)) }
{
    std::array::from_fn(|i| byte_behind(s, at, i))
}

// The number of two bytes at a place; bytes beyond the end count as 0.
pub fn read_u16(s: &[u8], at: usize) -> u16
    ensures { Stated 2 s.now at result }
{
    u16::from_le_bytes(bytes_at(s, at))
}

// The number of four bytes at a place; bytes beyond the end count as 0.
pub fn read_u32(s: &[u8], at: usize) -> u32
    ensures { Stated 4 s.now at result }
{
    u32::from_le_bytes(bytes_at(s, at))
}

// The number of eight bytes at a place; bytes beyond the end count as 0.
pub fn read_u64(s: &[u8], at: usize) -> u64
    ensures { Stated 8 s.now at result }
{
    u64::from_le_bytes(bytes_at(s, at))
}

// Bytes at the front of the part; a part that is too short stays as it is.
fn put<const N: usize>(part: &mut [u8], bytes: [u8; N])
    ensures { Put N bytes.entry part.old part.new }
{
    if part.len() >= N {
        part[..N].copy_from_slice(&bytes);
    }
}

// One byte at the front of the part; a part that is too short stays as it is.
pub fn write_u8(part: &mut [u8], v: u8)
    ensures { Put 1 (v ∷ []) part.old part.new }
{
    put(part, [v]);
}

// Two bytes at the front of the part, likewise.
pub fn write_u16(part: &mut [u8], v: u16)
    ensures { Put 2 (le 2 v) part.old part.new }
{
    put::<2>(part, v.to_le_bytes());
}

// Four bytes at the front of the part, likewise.
pub fn write_u32(part: &mut [u8], v: u32)
    ensures { Put 4 (le 4 v) part.old part.new }
{
    put::<4>(part, v.to_le_bytes());
}

// Eight bytes at the front of the part, likewise.
pub fn write_u64(part: &mut [u8], v: u64)
    ensures { Put 8 (le 8 v) part.old part.new }
{
    put::<8>(part, v.to_le_bytes());
}
