// Inner: what C is told of a fault: its body, item, byte and cause behind pointers, and its number as the answer.
#![tactic(auto)]

ghost use Rattle.std.specs.Prelude.{◌≡◌};
ghost use Rattle.told_causes.specs.Inner.Code.{code_in};
ghost use Rattle.told_causes.specs.Told.{four, WhyTold, BookTold, BodyTold};

use cause::Cause;
use cause_book::Reason;

// The number of a cause, in the order of the causes, 0 for none.
pub fn code(c: Option<Cause>) -> u8
    ensures { result ≡ code_in c }
{
    match c {
        None => 0,
        Some(cause) => cause as u8,
    }
}

// A fault told, and where there is none the body that was asked for and zeros; a fault of no body has body 16.
fn tell(
    why: Result<(), Reason>,
    asked: usize,
    body: &mut usize,
    item: &mut usize,
    byte: &mut usize,
    cause: &mut u8,
) -> u8
    ensures { WhyTold asked why result (four body.new item.new byte.new cause.new) }
{
    match why {
        Ok(()) => {
            *body = asked;
            *item = 0;
            *byte = 0;
            *cause = code(None);
            0
        }
        Err(reason) => {
            *body = reason.body.unwrap_or(exact::MOST_BODIES);
            *item = reason.fault.item;
            *byte = reason.fault.byte;
            *cause = code(Some(reason.fault.cause));
            u8::from(reason.fault.cause.refusal())
        }
    }
}

// Why a book is refused.
pub fn why(bytes: &[u8], body: &mut usize, item: &mut usize, byte: &mut usize, cause: &mut u8) -> u8
    ensures { BookTold bytes.now result (four body.new item.new byte.new cause.new) }
{
    tell(
        cause_book::why(bytes),
        exact::MOST_BODIES,
        body,
        item,
        byte,
        cause,
    )
}

// Why body j of a book is refused, whatever the other bodies are.
pub fn why_body(
    bytes: &[u8],
    j: usize,
    body: &mut usize,
    item: &mut usize,
    byte: &mut usize,
    cause: &mut u8,
) -> u8
    ensures { BodyTold bytes.now j result (four body.new item.new byte.new cause.new) }
{
    tell(cause_book::why_body(bytes, j), j, body, item, byte, cause)
}
