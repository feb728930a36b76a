// Repeated blocks: how far a block reaches, how many gates a body stands for, and the number that refuses its blocks. Only codes and counts are looked at.
#![tactic(auto)]

ghost use Rattle.std.specs.Prelude.{cond, ◌≡◌, ◌<◌, ◌≤◌, min, length};
ghost use Rattle.blocks.specs.Expansion.{item_count, expansion, blocks_fault, blocks_number};
ghost use Rattle.blocks.specs.Inner.Spans.{Good, Block, Item, Whole};

// What a block or an item reaches: the item behind it, and the gates that it stands for, counted up to one more than a body may have. At a fault there is none.
#[derive(Clone, Copy)]
struct Span {
    next: usize,
    size: u32,
}

// A count, stopped at one more than a body may have.
fn capped(n: u32) -> u32
    ensures { result ≡ min n 65537 }
{
    n.min(exact::MOST_EXPANDED + 1)
}

// The block reader: items from number `j` on to the close of their block, where `depth` more blocks may open.
#[cycle(block_item)]
fn block(items: &[u8], j: usize, depth: u8) -> Option<Span>
    requires { (j ≤ item_count items.now) × (depth < 8) }
    ensures { Block items.now j depth result }
{
    let count = items.len() / 3;
    let mut at = j;
    let mut size = 0u32;
    while at < count {
        let code = items[3 * at];
        if code == 65 {
            return Some(Span { next: at + 1, size });
        }
        let span = item(items, at, depth)?;
        at = span.next;
        size = capped(size + span.size);
    }
    None
}

// The item reader: item `j`, which closes no block, is a gate, or a block and what it stands for.
#[cycle(block_item)]
fn item(items: &[u8], j: usize, depth: u8) -> Option<Span>
    requires { Good items.now j depth }
    ensures { Item items.now j depth result }
{
    let code = items[3 * j];
    if code != 64 {
        return Some(Span {
            next: j + 1,
            size: 1,
        });
    }
    if depth == 0 {
        return None;
    }
    let times = items[3 * j + 1];
    let span = block(items, j + 1, depth - 1)?;
    if span.size == 0 {
        return None;
    }
    Some(Span {
        next: span.next,
        size: capped(span.size * u32::from(times)),
    })
}

// The whole body: how many gates it stands for, or that its blocks are at fault.
fn size(items: &[u8]) -> Option<u32>
    ensures { Whole items.now result }
{
    let count = items.len() / 3;
    let mut at = 0usize;
    let mut size = 0u32;
    while at < count {
        let top = items[3 * at];
        if top == 65 {
            return None;
        }
        let span = item(items, at, exact::MOST_DEEP)?;
        at = span.next;
        size = capped(size + span.size);
    }
    if exact::MOST_EXPANDED < size {
        return None;
    }
    Some(size)
}

// The number of the blocks of a body: 16, or 0.
pub fn number(items: &[u8]) -> u8
    ensures { result ≡ blocks_number items.now }
{
    match size(items) {
        None => exact::BAD_BLOCK,
        Some(_) => 0,
    }
}

// How many gates the expansion of a body has, 0 where its blocks are at fault.
pub fn count(items: &[u8]) -> u32
    ensures { result ≡ cond (blocks_fault items.now) 0 (length (expansion items.now)) }
{
    size(items).unwrap_or(0)
}
