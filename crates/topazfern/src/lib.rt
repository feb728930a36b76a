// The calls for bench software in C: over numbers and byte slices alone. Each takes any bytes and any numbers; where it answers a number of refusal, nothing that was lent has changed, but that a writer answers 0 bytes.
#![tactic(auto)]

ghost use Rattle.cliffords.specs.Closing.{product_number, inverse_number, closing_number, IsProduct, Undoes, Closes};
ghost use Rattle.told_cliffords.specs.Told.{ElementTold};
ghost use Rattle.told_tableau.specs.Told.{VerdictTold, PairTold};
ghost use Rattle.told_operator.specs.Told.{SameTold, PhaseTold};
ghost use Rattle.contents_lay.specs.Lay.{ContentsLaid};
ghost use Rattle.edit_numbers.specs.Volume.{remove, replace, add};
ghost use Rattle.edit.specs.Edit.{Edits};
ghost use Rattle.listing.specs.Listing.{Listed, ListedStrict};
ghost use Rattle.path_listing.specs.Listing.{PathsListed};
ghost use Rattle.told.specs.Told.{behind, odds, six};
ghost use Rattle.told_paths.specs.Told.{five, PathsTold};
ghost use Rattle.told_causes.specs.Told.{four, BookTold, BodyTold};
ghost use Rattle.told_tables.specs.Calls.{FreshTold, NewBitTold, TurnTold, ScaleTold, TieTold, SumTold, FixTold};
ghost use Rattle.told_tables_asks.specs.Asks.{EntryAsked, spreading, SpreadAsked};
ghost use Rattle.told_tables_books.specs.Books.{TableWriteTold};
ghost use Rattle.told_tables_operator.specs.Operator.{OperatorTold};
ghost use Rattle.told_bodies.specs.Bodies.{AmplitudeTold, EntryTold, WriteTold};
ghost use Rattle.topazfern.specs.Calls.{RecordTold, ReadTold, StrictReadTold};

// The amplitude of a circuit of an edition.
#[unsafe(no_mangle)]
pub extern "C" fn topazfern_amplitude(
    edition: u8,
    width: u8,
    input: u32,
    output: u32,
    gates: &[u8],
    zero: &mut u8,
    power: &mut i32,
    phase: &mut u8,
) -> u8
    ensures { AmplitudeTold edition width input output gates.now (behind zero.old power.old phase.old) result (behind zero.new power.new phase.new) }
{
    told_bodies::amplitude(edition, width, input, output, gates, zero, power, phase)
}

// The chance of a whole record, which is of edition 2.
#[unsafe(no_mangle)]
pub extern "C" fn topazfern_chance(
    width: u8,
    input: u32,
    gates: &[u8],
    never: &mut u8,
    power: &mut u32,
) -> u8
    ensures { RecordTold width input gates.now (odds never.old power.old) result (odds never.new power.new) }
{
    let a = record::chance_of(width, input, gates).map_err(u8::from);
    told::chance(a, never, power)
}

// The listing of a book, with a line for each body. Answers its length, at most 312; what lies beyond the area's end is dropped.
#[unsafe(no_mangle)]
pub extern "C" fn topazfern_listing(book: &[u8], text: &mut [u8]) -> usize
    ensures { Listed book.now text.old text.new result }
{
    listing::list(book, text)
}

// The listing of a book, all or nothing: where any body is refused, the single line of its number.
#[unsafe(no_mangle)]
pub extern "C" fn topazfern_listing_strict(book: &[u8], text: &mut [u8]) -> usize
    ensures { ListedStrict book.now text.old text.new result }
{
    listing::list_strict(book, text)
}

// Body j of a book, whatever its other bodies are: its kind, for a table its live bits and ties, and its amount; of a record its chance as an amount.
#[unsafe(no_mangle)]
pub extern "C" fn topazfern_read(
    book: &[u8],
    j: usize,
    kind: &mut u8,
    live: &mut usize,
    ties: &mut usize,
    zero: &mut u8,
    power: &mut i32,
    phase: &mut u8,
) -> u8
    ensures { ReadTold book.now j (six kind.old live.old ties.old zero.old power.old phase.old) result (six kind.new live.new ties.new zero.new power.new phase.new) }
{
    let b = book_shown::read(book, j);
    told::tell_body(b, kind, live, ties, zero, power, phase)
}

// The same, all or nothing: refused where any body of the book is.
#[unsafe(no_mangle)]
pub extern "C" fn topazfern_read_strict(
    book: &[u8],
    j: usize,
    kind: &mut u8,
    live: &mut usize,
    ties: &mut usize,
    zero: &mut u8,
    power: &mut i32,
    phase: &mut u8,
) -> u8
    ensures { StrictReadTold book.now j (six kind.old live.old ties.old zero.old power.old phase.old) result (six kind.new live.new ties.new zero.new power.new phase.new) }
{
    let b = book_shown::read_strict(book, j);
    told::tell_body(b, kind, live, ties, zero, power, phase)
}

// The entry of a table body at an assignment of its bits.
#[unsafe(no_mangle)]
pub extern "C" fn topazfern_entry(
    body: &[u8],
    width: u8,
    x: u64,
    zero: &mut u8,
    power: &mut i32,
    phase: &mut u8,
) -> u8
    ensures { EntryTold width body.now x (behind zero.old power.old phase.old) result (behind zero.new power.new phase.new) }
{
    told_bodies::entry(body, width, x, zero, power, phase)
}

// Every path of a table body added up: four whole numbers and the table's own power.
#[unsafe(no_mangle)]
pub extern "C" fn topazfern_paths(
    body: &[u8],
    width: u8,
    c0: &mut i32,
    c1: &mut i32,
    c2: &mut i32,
    c3: &mut i32,
    power: &mut i32,
) -> u8
    ensures { PathsTold width body.now (five c0.old c1.old c2.old c3.old power.old) result (five c0.new c1.new c2.new c3.new power.new) }
{
    told_paths::paths(body, width, c0, c1, c2, c3, power)
}

// The listing of the paths of a book, all or nothing. Answers its length, at most 888; what lies beyond the area's end is dropped.
#[unsafe(no_mangle)]
pub extern "C" fn topazfern_paths_listing(book: &[u8], text: &mut [u8]) -> usize
    ensures { PathsListed book.now text.old text.new result }
{
    path_listing::list(book, text)
}

// Header and contents of a book of an edition at the front of an area, from three lists.
#[unsafe(no_mangle)]
pub extern "C" fn topazfern_lay(
    area: &mut [u8],
    edition: u8,
    kinds: &[u8],
    widths: &[u8],
    lengths: &[u16],
    bytes: &mut usize,
) -> u8
    ensures { ContentsLaid area.old edition kinds.now widths.now lengths.now (record { refusal = result; bytes = bytes.new }) area.new }
{
    let w = contents_lay::lay(area, edition, kinds, widths, lengths);
    let n = w.bytes;
    *bytes = n;
    w.refusal
}

// A table body, tested, in an area from a start on.
#[unsafe(no_mangle)]
pub extern "C" fn topazfern_write(
    body: &[u8],
    width: u8,
    area: &mut [u8],
    start: usize,
    bytes: &mut usize,
) -> u8
    ensures { WriteTold width body.now area.old start result bytes.new area.new }
{
    told_bodies::write(body, width, area, start, bytes)
}

// The product of two one-wire elements: i, then j.
#[unsafe(no_mangle)]
pub extern "C" fn topazfern_product(i: u8, j: u8, element: &mut u8) -> u8
    ensures { ElementTold (product_number i j) (IsProduct i j) element.old result element.new }
{
    told_cliffords::product(i, j, element)
}

// The one-wire element that undoes element i.
#[unsafe(no_mangle)]
pub extern "C" fn topazfern_inverse(i: u8, element: &mut u8) -> u8
    ensures { ElementTold (inverse_number i) (Undoes i) element.old result element.new }
{
    told_cliffords::inverse(i, element)
}

// The one-wire element that undoes a run of elements, applied in order.
#[unsafe(no_mangle)]
pub extern "C" fn topazfern_closing(numbers: &[u8], element: &mut u8) -> u8
    ensures { ElementTold (closing_number numbers.now) (Closes numbers.now) element.old result element.new }
{
    told_cliffords::closing(numbers, element)
}

// Whether rows and signs that a compiler hands over are the Leuven tableau of a circuit of an edition.
#[unsafe(no_mangle)]
pub extern "C" fn topazfern_tableau(
    edition: u8,
    width: u8,
    gates: &[u8],
    rows: &[u64],
    h: u64,
    holds: &mut u8,
) -> u8
    ensures { VerdictTold edition width gates.now rows.now h holds.old result holds.new }
{
    told_tableau::check(edition, width, gates, rows, h, holds)
}

// The Leuven tableau of a circuit of an edition: 2n rows at the front of a list, the signs behind the pointer.
#[unsafe(no_mangle)]
pub extern "C" fn topazfern_tableau_of(
    edition: u8,
    width: u8,
    gates: &[u8],
    rows: &mut [u64],
    h: &mut u64,
) -> u8
    ensures { PairTold edition width gates.now rows.old h.old result rows.new h.new }
{
    told_tableau::of(edition, width, gates, rows, h)
}

// Whether two circuits of one width, each of its edition, are the same operator.
#[unsafe(no_mangle)]
pub extern "C" fn topazfern_same(
    edition: u8,
    width: u8,
    gates: &[u8],
    edition2: u8,
    width2: u8,
    gates2: &[u8],
    same: &mut u8,
) -> u8
    ensures { SameTold edition width gates.now edition2 width2 gates2.now same.old result same.new }
{
    told_operator::same(edition, width, gates, edition2, width2, gates2, same)
}

// The same up to a common phase: the eighth turns by which the first circuit's entries must be multiplied to give the second's.
#[unsafe(no_mangle)]
pub extern "C" fn topazfern_common_phase(
    edition: u8,
    width: u8,
    gates: &[u8],
    edition2: u8,
    width2: u8,
    gates2: &[u8],
    same: &mut u8,
    phase: &mut u8,
) -> u8
    ensures { PhaseTold edition width gates.now edition2 width2 gates2.now same.old phase.old result same.new phase.new }
{
    told_operator::common_phase(edition, width, gates, edition2, width2, gates2, same, phase)
}

// The operator table of a circuit of an edition, in the bytes of a table.
#[unsafe(no_mangle)]
pub extern "C" fn topazfern_operator(edition: u8, width: u8, gates: &[u8], table: &mut [u8]) -> u8
    ensures { OperatorTold edition width gates.now table.old result table.new }
{
    told_tables_operator::operator(edition, width, gates, table)
}

// Body j of the book in the first `length` bytes of an area goes; behind the pointer stands the new length, 0 where refused.
#[unsafe(no_mangle)]
pub extern "C" fn topazfern_remove(
    area: &mut [u8],
    length: usize,
    j: usize,
    bytes: &mut usize,
) -> u8
    ensures { Edits area.old length (remove j) (record { refusal = result; length = bytes.new }) area.new }
{
    let r = edit::remove(area, length, j);
    let m = r.length;
    *bytes = m;
    r.refusal
}

// A new body comes in the place of body j of the book in the first `length` bytes of an area.
#[unsafe(no_mangle)]
pub extern "C" fn topazfern_replace(
    area: &mut [u8],
    length: usize,
    j: usize,
    kind: u8,
    width: u8,
    body: &[u8],
    bytes: &mut usize,
) -> u8
    ensures { Edits area.old length (replace j kind width body.now) (record { refusal = result; length = bytes.new }) area.new }
{
    let r = edit::replace(area, length, j, kind, width, body);
    let m = r.length;
    *bytes = m;
    r.refusal
}

// A new body comes at the end of the book in the first `length` bytes of an area.
#[unsafe(no_mangle)]
pub extern "C" fn topazfern_add(
    area: &mut [u8],
    length: usize,
    kind: u8,
    width: u8,
    body: &[u8],
    bytes: &mut usize,
) -> u8
    ensures { Edits area.old length (add kind width body.now) (record { refusal = result; length = bytes.new }) area.new }
{
    let r = edit::add(area, length, kind, width, body);
    let m = r.length;
    *bytes = m;
    r.refusal
}

// Why a book is refused: its first fault in the documents' order, 0 for none, with its body, item, byte and cause behind the pointers.
#[unsafe(no_mangle)]
pub extern "C" fn topazfern_why(
    book: &[u8],
    body: &mut usize,
    item: &mut usize,
    byte: &mut usize,
    cause: &mut u8,
) -> u8
    ensures { BookTold book.now result (four body.new item.new byte.new cause.new) }
{
    told_causes::why(book, body, item, byte, cause)
}

// Why body j of a book is refused, whatever the other bodies are.
#[unsafe(no_mangle)]
pub extern "C" fn topazfern_why_body(
    book: &[u8],
    j: usize,
    body: &mut usize,
    item: &mut usize,
    byte: &mut usize,
    cause: &mut u8,
) -> u8
    ensures { BodyTold book.now j result (four body.new item.new byte.new cause.new) }
{
    told_causes::why_body(book, j, body, item, byte, cause)
}

// A table in 1,293 lent bytes: no live bits, entry 1, whatever the bytes were.
#[unsafe(no_mangle)]
pub extern "C" fn topazfern_table_fresh(table: &mut [u8]) -> u8
    ensures { FreshTold table.old result table.new }
{
    told_tables_bits::fresh(table)
}

// The lowest free slot of a table becomes live with a label; behind the pointer stands that slot.
#[unsafe(no_mangle)]
pub extern "C" fn topazfern_table_new_bit(table: &mut [u8], label: u16, slot: &mut usize) -> u8
    ensures { NewBitTold table.old label slot.old result table.new slot.new }
{
    told_tables_bits::new_bit(table, label, slot)
}

// Times i^(k·x_v) where u and v are one slot; else k is 0 or 2, and 2 is the sign.
#[unsafe(no_mangle)]
pub extern "C" fn topazfern_table_turn(table: &mut [u8], u: usize, v: usize, k: u8) -> u8
    ensures { TurnTold table.old u v k result table.new }
{
    told_tables_moves::turn(table, u, v, k)
}

// Times √2^m · ω^p.
#[unsafe(no_mangle)]
pub extern "C" fn topazfern_table_scale(table: &mut [u8], m: i32, p: u8) -> u8
    ensures { ScaleTold table.old m p result table.new }
{
    told_tables_moves::scale(table, m, p)
}

// Entries where the parity of a mask is not r become 0.
#[unsafe(no_mangle)]
pub extern "C" fn topazfern_table_tie(table: &mut [u8], mask: u64, r: u8) -> u8
    ensures { TieTold table.old mask r result table.new }
{
    told_tables_moves::tie(table, mask, r)
}

// Slot v summed over 0 and 1, and freed; behind the pointer stands the case that applied.
#[unsafe(no_mangle)]
pub extern "C" fn topazfern_table_sum(table: &mut [u8], v: usize, rule: &mut u8) -> u8
    ensures { SumTold table.old v rule.old result table.new rule.new }
{
    told_tables_bits::sum(table, v, rule)
}

// x_v set to r, and v freed.
#[unsafe(no_mangle)]
pub extern "C" fn topazfern_table_fix(table: &mut [u8], v: usize, r: u8) -> u8
    ensures { FixTold table.old v r result table.new }
{
    told_tables_moves::fix(table, v, r)
}

// The entry of a table at an assignment of its live bits.
#[unsafe(no_mangle)]
pub extern "C" fn topazfern_table_entry(
    table: &[u8],
    x: u64,
    zero: &mut u8,
    power: &mut i32,
    phase: &mut u8,
) -> u8
    ensures { EntryAsked table.now x (behind zero.old power.old phase.old) result (behind zero.new power.new phase.new) }
{
    told_tables_asks::entry(table, x, zero, power, phase)
}

// How many entries of a table are not zero: none, or two to an exponent.
#[unsafe(no_mangle)]
pub extern "C" fn topazfern_table_spread(table: &[u8], none: &mut u8, e: &mut usize) -> u8
    ensures { SpreadAsked table.now (spreading none.old e.old) result (spreading none.new e.new) }
{
    told_tables_asks::spread(table, none, e)
}

// The body of a table, without its labels, in an area from a start on.
#[unsafe(no_mangle)]
pub extern "C" fn topazfern_table_write(
    table: &[u8],
    area: &mut [u8],
    start: usize,
    bytes: &mut usize,
) -> u8
    ensures { TableWriteTold table.now area.old start result bytes.new area.new }
{
    told_tables_books::write(table, area, start, bytes)
}
