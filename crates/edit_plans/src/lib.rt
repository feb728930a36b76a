// What an edit of a book is to move, and the lists of the book after it, read before a byte is changed. Inner: the book's contents are good, and the body is one of its own or there is room for one more (`requires`).
#![tactic(auto)]

ghost use Rattle.std.specs.Prelude.{[], ◌≡◌, ◌<◌};
ghost use Rattle.contents.specs.Contents.{count_of, contents_number};
ghost use Rattle.edit_numbers.specs.Volume.{skip, remove, replace, add, volume_of, edited};
ghost use Rattle.edit_plans.specs.Inner.Lists.{Readable, Reads, Put};
ghost use Rattle.edit_plans.specs.Inner.Plan.{NewFits, Planned};

// Kinds, widths and lengths of so many bodies: three lists, as the C interface lays a book (`topazfern_lay`).
#[derive(Clone, Copy)]
pub struct Lists {
    pub count: usize,
    pub kinds: [u8; 16],
    pub widths: [u8; 16],
    pub lengths: [u16; 16],
}

// The book after an edit: its edition and lists, where the old bodies begin, and the places between which the new body comes.
#[derive(Clone, Copy)]
pub struct Plan {
    pub edition: u8,
    pub lists: Lists,
    pub old: usize,
    pub from: usize,
    pub to: usize,
}

// Which body is body i once body j is gone.
fn skip(j: usize, i: usize) -> usize
    requires { i < 16 }
    ensures { result ≡ skip j i }
{
    if i < j { i } else { i + 1 }
}

// The lists of the first `count` bodies of a book without body j.
fn read(book: &[u8], count: usize, j: usize) -> Lists
    requires { Readable book.now count j }
    ensures { Reads book.now count j result }
{
    let mut kinds = [0u8; 16];
    let mut widths = [0u8; 16];
    let mut lengths = [0u16; 16];
    for i in 0..count {
        let e = contents::entry_at(book, skip(j, i));
        kinds[i] = e.kind;
        widths[i] = e.width;
        lengths[i] = e.length as u16;
    }
    Lists {
        count,
        kinds,
        widths,
        lengths,
    }
}

// The lists with a new body in the place of body j, and so many bodies.
fn put(l: Lists, count: usize, j: usize, kind: u8, width: u8, size: u16) -> Lists
    requires { j < 16 }
    ensures { Put l count j kind width size result }
{
    let mut put = l;
    put.count = count;
    put.kinds[j] = kind;
    put.widths[j] = width;
    put.lengths[j] = size;
    put
}

// Body j goes.
pub fn removal(book: &[u8], j: usize) -> Plan
    requires { (contents_number book.now ≡ 0) × (j < count_of book.now) }
    ensures { Planned book.now (edited (remove j) (volume_of book.now)) [] result }
{
    let count = contents::count(book);
    let e = contents::entry_at(book, j);
    Plan {
        edition: contents::edition(book),
        lists: read(book, count - 1, j),
        old: 4 + 8 * count,
        from: e.start,
        to: e.start + e.length,
    }
}

// A new body comes in the place of body j.
pub fn replacement(book: &[u8], j: usize, kind: u8, width: u8, body: &[u8]) -> Plan
    requires { NewFits book.now body.now × (j < count_of book.now) }
    ensures { Planned book.now (edited (replace j kind width body.now) (volume_of book.now)) body.now result }
{
    let count = contents::count(book);
    let e = contents::entry_at(book, j);
    let from = e.start;
    let gone = e.length;
    let come = body.len();
    let l = read(book, count, count);
    Plan {
        edition: contents::edition(book),
        lists: put(l, count, j, kind, width, come as u16),
        old: 4 + 8 * count,
        from,
        to: from + gone,
    }
}

// A new body comes at the end.
pub fn addition(book: &[u8], kind: u8, width: u8, body: &[u8]) -> Plan
    requires { NewFits book.now body.now × (count_of book.now < 16) }
    ensures { Planned book.now (edited (add kind width body.now) (volume_of book.now)) body.now result }
{
    let count = contents::count(book);
    let l = read(book, count, count);
    Plan {
        edition: contents::edition(book),
        lists: put(l, count + 1, count, kind, width, body.len() as u16),
        old: 4 + 8 * count,
        from: book.len(),
        to: book.len(),
    }
}
