// Why a book is refused: the causes of each number of refusal, and a fault that was found, with its place.
#![tactic(auto)]

ghost use Rattle.std.specs.Prelude.{◌≡◌};
ghost use Rattle.exact.specs.Code.{code_of};
ghost use Rattle.cause.specs.Cause.{number_of};
ghost use Rattle.cause.specs.Inner.Fault.{found_of};

use exact::Refusal;

// The causes, in the order in which they are looked for in a book, a circuit or record, and a table, each with its own number.
#[derive(Clone, Copy, Debug, PartialEq, Eq)]
pub enum Cause {
    Short = 1,
    Long = 2,
    Letters = 3,
    Edition = 4,
    Count = 5,
    Contents = 6,
    Kind = 7,
    Start = 8,
    End = 9,
    LastEnd = 10,
    NoBody = 11,
    Strings = 12,
    Threes = 13,
    Many = 14,
    Wires = 15,
    Input = 16,
    Output = 17,
    Code = 18,
    Wire = 19,
    SecondWire = 20,
    SameWire = 21,
    SecondByte = 22,
    Outcome = 23,
    NoCount = 24,
    Stray = 25,
    Deep = 26,
    Unopened = 27,
    Empty = 28,
    Unclosed = 29,
    Expansion = 30,
    TableWidth = 31,
    Length = 32,
    ManyTies = 33,
    ZeroMark = 34,
    Phase = 35,
    PowerOut = 36,
    Turn = 37,
    Row = 38,
    Mask = 39,
    Side = 40,
    NotNormal = 41,
}

// A fault: its cause, the item at fault (the gate or mark, the slot or the tie, counted from 0; 0 where the cause is of none), and its byte, counted from the start of the book.
#[derive(Clone, Copy, Debug, PartialEq, Eq)]
pub struct Found {
    pub cause: Cause,
    pub item: usize,
    pub byte: usize,
}

impl Cause {
    // What a cause refuses by.
    #[tactic(auto, unfolding(crate::specs::Cause::number_of))]
    pub fn refusal(self) -> Refusal
        ensures { code_of result ≡ number_of self }
    {
        match self {
            Cause::Short | Cause::Long | Cause::Letters | Cause::Edition | Cause::Count => {
                Refusal::BadHeader
            }
            Cause::Contents | Cause::Kind | Cause::Start | Cause::End | Cause::LastEnd => {
                Refusal::BadContents
            }
            Cause::NoBody => Refusal::NoBody,
            Cause::Wires | Cause::Wire | Cause::SecondWire => Refusal::BadWire,
            Cause::Input | Cause::Output => Refusal::BadString,
            Cause::Code => Refusal::UnknownCode,
            Cause::SameWire => Refusal::Twice,
            Cause::SecondByte | Cause::Outcome | Cause::NoCount | Cause::Stray => {
                Refusal::OutOfRange
            }
            Cause::Deep | Cause::Unopened | Cause::Empty | Cause::Unclosed | Cause::Expansion =>
                Refusal::BadBlock,
            Cause::Strings
            | Cause::Threes
            | Cause::Many
            | Cause::TableWidth
            | Cause::Length
            | Cause::ManyTies
            | Cause::ZeroMark
            | Cause::Phase
            | Cause::PowerOut
            | Cause::Turn
            | Cause::Row
            | Cause::Mask
            | Cause::Side => Refusal::BadBody,
            Cause::NotNormal => Refusal::NotNormal,
        }
    }
}

// A fault of a cause, at an item and a byte; without a cause there is none.
pub fn fault(cause: Option<Cause>, item: usize, byte: usize) -> Result<(), Found>
    ensures { result ≡ found_of cause item byte }
{
    match cause {
        None => Ok(()),
        Some(cause) => Err(Found { cause, item, byte }),
    }
}
