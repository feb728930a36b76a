// Whether a table's body in a book is refused by 11: its length, its ranges, its rows and its ties.
#![tactic(auto)]

ghost use Rattle.std.specs.Prelude.{◌≡◌, ◌^◌, leb};
ghost use Rattle.state.specs.Number.{outside};
ghost use Rattle.contents.specs.Contents.{any_below};
ghost use Rattle.body_bytes.specs.Body.{tie_count, size_fault, head_fault, turn_fault, row_fault, tie_fault, body_fault};

// Whether a power is below −2,000 or above 2,000.
pub fn power_out(s: i32) -> bool
    ensures { result ≡ outside s }
{
    s < exact::LEAST_POWER || s > exact::MOST_POWER
}

// Whether a mask has a bit at or above the width.
pub fn mask_out(m: u64, width: u8) -> bool
    ensures { result ≡ leb (2 ^ width) m }
{
    width < 64 && m >> width > 0
}

// Whether the width, the length or the tie count is refused.
#[tactic(auto, unfolding(body_bytes::specs::Body::size_fault))]
fn size_fault(bs: &[u8], width: u8) -> bool
    ensures { result ≡ size_fault width bs.now }
{
    if width > 64 {
        return true;
    }
    let least = 5 + 9 * (width as usize);
    if bs.len() < least {
        return true;
    }
    let k = body_bytes::count_of(bs, width);
    k > width || bs.len() != least + 9 * (k as usize)
}

// Whether the zero mark, the phase or the power is out of range.
fn head_fault(bs: &[u8]) -> bool
    ensures { result ≡ head_fault bs.now }
{
    fields::read_u8(bs, 0) > 1 || fields::read_u8(bs, 1) > 7 || power_out(body_bytes::power_of(bs))
}

// Whether some turn is out of range.
fn turn_fault(bs: &[u8], width: u8) -> bool
    ensures { result ≡ any_below width (turn_fault bs.now) }
{
    (0..width).any(|v| body_bytes::turn_of(bs, v) > 3)
}

// Whether some row has a bit at or above the width.
fn row_fault(bs: &[u8], width: u8) -> bool
    ensures { result ≡ any_below width (row_fault width bs.now) }
{
    (0..width).any(|v| mask_out(body_bytes::row_of(bs, width, v), width))
}

// Whether the mask or the r of tie j is out of range.
#[tactic(auto, unfolding(body_bytes::specs::Body::tie_fault))]
fn tie_fault(bs: &[u8], width: u8, j: u8) -> bool
    ensures { result ≡ tie_fault width bs.now j }
{
    mask_out(body_bytes::mask_of(bs, width, j), width) || body_bytes::side_of(bs, width, j) > 1
}

// Whether some tie is out of range.
fn ties_fault(bs: &[u8], width: u8) -> bool
    ensures { result ≡ any_below (tie_count width bs.now) (tie_fault width bs.now) }
{
    (0..body_bytes::count_of(bs, width)).any(|j| tie_fault(bs, width, j))
}

// Whether a body of this width is refused by 11.
#[tactic(auto, unfolding(body_bytes::specs::Body::body_fault))]
pub fn fault(bs: &[u8], width: u8) -> bool
    ensures { result ≡ body_fault width bs.now }
{
    size_fault(bs, width)
        || head_fault(bs)
        || turn_fault(bs, width)
        || row_fault(bs, width)
        || ties_fault(bs, width)
}
