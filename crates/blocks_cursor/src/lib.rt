// Inner: the expansion of a body gate by gate, by a cursor that goes through it without writing it out. Asks of its callers bytes whose blocks are not at fault and whose counts are not 0 (`Sound`).
#![tactic(auto)]

ghost use Rattle.std.specs.Prelude.{◌≡◌, ◌+◌, ◌<◌, ◌≤◌, length};
ghost use Rattle.blocks.specs.Expansion.{expansion};
ghost use Rattle.blocks_cursor.specs.Inner.Cursor.{inside, outside, past, front, Sort, Marked, Passes, Sound};

use std::marker::Model;

// Where a run through the expansion stands: at item `at`, with `depth` blocks open. Of each open block `starts` has the number of its first item and `lefts` how often it is run again.
#[derive(Clone, Copy)]
struct Cursor {
    at: usize,
    depth: usize,
    starts: [usize; 8],
    lefts: [u8; 8],
}

impl Cursor {
    // At the first item, with no block open.
    fn begun() -> Self
        ensures { result ≡ front }
    {
        Cursor {
            at: 0,
            depth: 0,
            starts: [0; 8],
            lefts: [0; 8],
        }
    }

    // Behind the mark that opens a block which is run `times` times.
    fn enter(&mut self, times: u8)
        requires { (self.old.at < 4096) × (self.old.depth < 8) × (0 < times) }
        ensures { self.new ≡ inside self.old times }
    {
        let d = self.depth;
        let first = self.at + 1;
        self.starts[d] = first;
        self.lefts[d] = times - 1;
        self.at = first;
        self.depth = d + 1;
    }

    // Behind the mark that closes a block, or at its first item once more.
    fn leave(&mut self)
        requires { (self.old.at < 4096) × (0 < self.old.depth) × (self.old.depth ≤ 8) }
        ensures { self.new ≡ outside self.old }
    {
        let d = self.depth - 1;
        let more = self.lefts[d];
        if more == 0 {
            self.at += 1;
            self.depth = d;
            return;
        }
        self.lefts[d] = more - 1;
        self.at = self.starts[d];
    }

    // Behind the mark at which the cursor stands: in its block, or out of it, or in it once more.
    fn pass(&mut self, items: &[u8])
        requires { Marked items.now self.old }
        ensures { Passes items.now self.old self.new }
    {
        let at = self.at;
        let code = items[3 * at];
        if code == 64 {
            let times = items[3 * at + 1];
            self.enter(times);
            return;
        }
        self.leave();
    }

    // Behind the gate at which the cursor stands.
    fn step(&mut self)
        requires { self.old.at < 4096 }
        ensures { self.new ≡ past self.old }
    {
        self.at += 1;
    }
}

// Whether a code is a gate's: it neither opens nor closes a block.
pub fn is_gate(code: u8) -> bool
    ensures { Sort code result }
{
    code != 64 && code != 65
}

// The numbers of a body's gates as they are applied, seen as the list of those that are left.
#[derive(Clone, Drop)]
pub struct Expansion<'a> {
    items: &'a [u8],
    cursor: Cursor,
}

impl<'a> Model for Expansion<'a> {
    ghost use Rattle.std.specs.Prelude.{ℕ, List};

    ghost Value = { List ℕ };

    ghost use Rattle.blocks_cursor.specs.Inner.Cursor.{todo_at, Held};

    ghost view = { λ e. todo_at e.items.now e.cursor };

    ghost invariant = { λ e. Held e.items.now e.cursor };
}

impl<'a> Iterator for Expansion<'a> {
    ghost use Rattle.std.specs.Iterator.{YieldsFirst, item_count};

    type Item = usize;

    ghost next_gives = { YieldsFirst (λ rest. rest) };

    ghost remaining = { item_count (λ rest. rest) };

    fn next(&mut self) -> Option<usize> {
        let items = self.items;
        let count = items.len() / 3;
        while self.cursor.at < count {
            let at = self.cursor.at;
            if is_gate(items[3 * at]) {
                self.cursor.step();
                return Some(at);
            }
            self.cursor.pass(items);
        }
        None
    }
}

// The expansion of a body from its front.
pub fn expanded(items: &[u8]) -> Expansion<'_>
    requires { Sound items.now }
    ensures { result ≡ expansion items.now }
{
    Expansion {
        items,
        cursor: Cursor::begun(),
    }
}
