// The first fault of the blocks of a body, mark by mark. Inner: asks that the body has at most 20,000 items and lies within a book.
#![tactic(auto)]

ghost use Rattle.std.specs.Prelude.{◌≡◌, ◌≤◌};
ghost use Rattle.blocks.specs.Expansion.{item_count};
ghost use Rattle.cause_blocks.specs.Blocks.{mark_found, behind, blocks_found};
ghost use Rattle.cause_blocks.specs.Inner.Steps.{Steps};

use cause::{Cause, Found};

// What is known between two items: how many more blocks may open, which item opened the outermost open one, and whether the item before opened a block.
#[derive(Clone, Copy)]
pub struct Scan {
    pub more: u8,
    pub outer: usize,
    pub fresh: bool,
}

// The fault of item j as a mark.
fn mark(code: u8, j: usize, at: usize, s: Scan) -> Result<(), Found>
    requires { (j ≤ 20000) × (at ≤ 60000) }
    ensures { result ≡ mark_found at code j s }
{
    if code != 65 {
        if code != 64 {
            return Ok(());
        }
        if s.more != 0 {
            return Ok(());
        }
        return cause::fault(Some(Cause::Deep), j, at + 3 * j);
    }
    if s.more == exact::MOST_DEEP {
        return cause::fault(Some(Cause::Unopened), j, at + 3 * j);
    }
    if s.fresh {
        return cause::fault(Some(Cause::Empty), j, at + 3 * j);
    }
    Ok(())
}

// What is known behind item j, which is not at fault as a mark.
fn step(code: u8, j: usize, s: Scan) -> Scan
    requires { Steps code s }
    ensures { result ≡ behind code j s }
{
    if code == 64 {
        if s.more == exact::MOST_DEEP {
            return Scan {
                more: 7,
                outer: j,
                fresh: true,
            };
        }
        return Scan {
            more: s.more - 1,
            fresh: true,
            ..s
        };
    }
    if code == 65 {
        return Scan {
            more: s.more + 1,
            fresh: false,
            ..s
        };
    }
    Scan { fresh: false, ..s }
}

// The first fault of the marks, and then of the expansion, of a body whose items start at a byte.
pub fn first(items: &[u8], at: usize) -> Result<(), Found>
    requires { (item_count items.now ≤ 20000) × (at ≤ 60000) }
    ensures { result ≡ blocks_found at items.now }
{
    let count = items.len() / 3;
    let mut s = Scan {
        more: 8,
        outer: 0,
        fresh: false,
    };
    for j in 0..count {
        let code = items[3 * j];
        mark(code, j, at, s)?;
        s = step(code, j, s);
    }
    if s.more != exact::MOST_DEEP {
        return cause::fault(Some(Cause::Unclosed), s.outer, at + 3 * s.outer);
    }
    if blocks::number(items) != 0 {
        return cause::fault(Some(Cause::Expansion), 0, at);
    }
    Ok(())
}
