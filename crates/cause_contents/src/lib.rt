// The first fault of a book's header and contents, in the documents' order. Inner: `first` serves the book.
#![tactic(auto)]

ghost use Rattle.std.specs.Prelude.{◌≡◌, ◌≤◌};
ghost use Rattle.cause_contents.specs.Contents.{header_found, entry_found, contents_found};

use cause::{Cause, Found};
use contents::Entry;

// The first fault of the header.
fn header(bs: &[u8]) -> Result<(), Found>
    ensures { result ≡ header_found bs.now }
{
    if bs.len() < 4 {
        return cause::fault(Some(Cause::Short), 0, 0);
    }
    if bs.len() > exact::MOST_BYTES {
        return cause::fault(Some(Cause::Long), 0, exact::MOST_BYTES);
    }
    if bs[0] != 0x51 {
        return cause::fault(Some(Cause::Letters), 0, 0);
    }
    if bs[1] != 0x4E {
        return cause::fault(Some(Cause::Letters), 0, 1);
    }
    if !editions::good_edition(contents::edition(bs)) {
        return cause::fault(Some(Cause::Edition), 0, 2);
    }
    if contents::count(bs) > exact::MOST_BODIES {
        return cause::fault(Some(Cause::Count), 0, 3);
    }
    Ok(())
}

// The first fault of entry j, whose body is to start at a place of a book of an edition and so many bytes.
fn entry(edition: u8, e: Entry, j: usize, from: usize, size: usize) -> Result<(), Found>
    requires { j ≤ 16 }
    ensures { result ≡ entry_found edition e j from size }
{
    if !contents::good_kind(edition, e.kind) {
        return cause::fault(Some(Cause::Kind), j, 4 + 8 * j);
    }
    if e.start != from {
        return cause::fault(Some(Cause::Start), j, 8 + 8 * j);
    }
    if size < e.start {
        return cause::fault(Some(Cause::End), j, 6 + 8 * j);
    }
    if size - e.start < e.length {
        return cause::fault(Some(Cause::End), j, 6 + 8 * j);
    }
    Ok(())
}

// The first fault of header and contents.
pub fn first(bs: &[u8]) -> Result<(), Found>
    ensures { result ≡ contents_found bs.now }
{
    header(bs)?;
    let n = contents::count(bs);
    let behind = 4 + 8 * n;
    if bs.len() < behind {
        return cause::fault(Some(Cause::Contents), 0, bs.len());
    }
    let edition = contents::edition(bs);
    let mut at = behind;
    for j in 0..n {
        let e = contents::entry_at(bs, j);
        entry(edition, e, j, at, bs.len())?;
        at += e.length;
    }
    if at != bs.len() {
        return cause::fault(Some(Cause::LastEnd), 0, at);
    }
    Ok(())
}
