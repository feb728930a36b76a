// The first fault of a table's body. Inner: asks that the body lies within a book.
#![tactic(auto)]

ghost use Rattle.std.specs.Prelude.{◌≡◌, ◌+◌, ◌≤◌, length};
ghost use Rattle.body_bytes.specs.Body.{tie_count};
ghost use Rattle.cause.specs.Cause.{first_below};
ghost use Rattle.cause_table.specs.Table.{size_found, head_found, turn_found, row_found, tie_found, body_found, TableFound};

use cause::{Cause, Found};

// The first fault of the width, whose byte stands in the contents, the length and the tie count.
fn size(bs: &[u8], width: u8, from: usize, listed: usize) -> Result<(), Found>
    requires { from + length bs.now ≤ 60000 }
    ensures { result ≡ size_found from listed width bs.now }
{
    if width > 64 {
        return cause::fault(Some(Cause::TableWidth), 0, listed);
    }
    let least = 5 + 9 * (width as usize);
    if bs.len() < least {
        return cause::fault(Some(Cause::Length), 0, from + bs.len());
    }
    let k = body_bytes::count_of(bs, width);
    if k > width {
        return cause::fault(Some(Cause::ManyTies), 0, from + (4 + 9 * (width as usize)));
    }
    if bs.len() != least + 9 * (k as usize) {
        return cause::fault(Some(Cause::Length), 0, from + bs.len());
    }
    Ok(())
}

// The first fault of the zero mark, the phase and the power.
fn head(bs: &[u8], from: usize) -> Result<(), Found>
    requires { from ≤ 60000 }
    ensures { result ≡ head_found from bs.now }
{
    if fields::read_u8(bs, 0) > 1 {
        return cause::fault(Some(Cause::ZeroMark), 0, from);
    }
    if fields::read_u8(bs, 1) > 7 {
        return cause::fault(Some(Cause::Phase), 0, from + 1);
    }
    if body_fault::power_out(body_bytes::power_of(bs)) {
        return cause::fault(Some(Cause::PowerOut), 0, from + 2);
    }
    Ok(())
}

// The first turn that is out of range.
fn turns(bs: &[u8], width: u8, from: usize) -> Result<(), Found>
    requires { from ≤ 60000 }
    ensures { result ≡ first_below width (turn_found from bs.now) }
{
    for v in 0..width {
        if body_bytes::turn_of(bs, v) > 3 {
            return cause::fault(Some(Cause::Turn), v as usize, from + (4 + v as usize));
        }
    }
    Ok(())
}

// The first row that has a bit at or above the width.
fn rows(bs: &[u8], width: u8, from: usize) -> Result<(), Found>
    requires { from ≤ 60000 }
    ensures { result ≡ first_below width (row_found from width bs.now) }
{
    for v in 0..width {
        if body_fault::mask_out(body_bytes::row_of(bs, width, v), width) {
            return cause::fault(
                Some(Cause::Row),
                v as usize,
                from + (4 + width as usize + 8 * (v as usize)),
            );
        }
    }
    Ok(())
}

// The fault of tie j: its mask, then its r.
fn tie(bs: &[u8], width: u8, j: u8, from: usize) -> Result<(), Found>
    requires { from ≤ 60000 }
    ensures { result ≡ tie_found from width bs.now j }
{
    let at = 5 + 9 * (width as usize) + 9 * (j as usize);
    if body_fault::mask_out(body_bytes::mask_of(bs, width, j), width) {
        return cause::fault(Some(Cause::Mask), j as usize, from + at);
    }
    if body_bytes::side_of(bs, width, j) > 1 {
        return cause::fault(Some(Cause::Side), j as usize, from + (at + 8));
    }
    Ok(())
}

// The first tie that is out of range.
fn ties(bs: &[u8], width: u8, from: usize) -> Result<(), Found>
    requires { from ≤ 60000 }
    ensures { result ≡ first_below (tie_count width bs.now) (tie_found from width bs.now) }
{
    let k = body_bytes::count_of(bs, width);
    for j in 0..k {
        tie(bs, width, j, from)?;
    }
    Ok(())
}

// The first fault of the fields.
fn fields_of(bs: &[u8], width: u8, from: usize, listed: usize) -> Result<(), Found>
    requires { from + length bs.now ≤ 60000 }
    ensures { result ≡ body_found from listed width bs.now }
{
    size(bs, width, from, listed)?;
    head(bs, from)?;
    turns(bs, width, from)?;
    rows(bs, width, from)?;
    ties(bs, width, from)
}

// The first fault of a table's body that starts at a byte of a book: its fields, then that its table is not normal.
pub fn table(bs: &[u8], width: u8, from: usize, listed: usize) -> Result<(), Found>
    requires { from + length bs.now ≤ 60000 }
    ensures { TableFound from listed width bs.now result }
{
    fields_of(bs, width, from, listed)?;
    let r = body_read::read(bs, width);
    let refusal = r.refusal;
    if refusal != 0 {
        return cause::fault(Some(Cause::NotNormal), 0, from);
    }
    Ok(())
}
