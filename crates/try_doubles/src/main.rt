// The doubles of a fixed list of amounts, a line for each: power, phase, and the bit patterns of the real and the imaginary part.
#![tactic(auto)]

ghost use Rattle.std.specs.Prelude.{T, not, ◌≡◌};
ghost use Rattle.std.specs.Float.{binary64};
ghost use Rattle.std.specs.Float.Ieee.{is_nan, to_bits};

use doubles::Doubles;
use exact::{Amount, Eighth, Power};
use std::io;
use std::io::Write;

// The bit pattern of a double that is a number.
fn bits(x: f64) -> u64
    requires { T (not (is_nan x)) }
    ensures { result ≡ to_bits binary64 x }
{
    f64::to_bits(x)
}

// A bit pattern as 16 digits, with a space before it.
fn pattern(out: &mut impl Write, x: u64) -> io::Result<()> {
    out.write_all(b" ")?;
    output::hexadecimal(out, x, 16)
}

// The patterns of an amount's real and imaginary part.
fn patterns(out: &mut impl Write, power: i32, phase: u8) -> io::Result<()> {
    let d = doubles::of_amount(Amount::Some(Power(power), Eighth(phase)));
    match d {
        Doubles::Refused(_) => {}
        Doubles::Zero => {}
        Doubles::Value(x, y) => {
            pattern(out, bits(x))?;
            pattern(out, bits(y))?;
        }
    }
    Ok(())
}

// One line.
fn show(out: &mut impl Write, power: i32, phase: u8) -> io::Result<()> {
    if power < 0 {
        out.write_all(b"-")?;
    }
    output::number(out, lines_words::size(power))?;
    out.write_all(b" ")?;
    output::number(out, phase as u64)?;
    patterns(out, power, phase)?;
    out.write_all(b"\n")
}

// The list of tests/doubles_bits.py.
fn main(rt: HostRuntime) -> io::Result<()> {
    let out = &mut rt.stdout();
    show(out, -1, 1)?;
    show(out, 0, 0)?;
    show(out, 1, 0)?;
    show(out, 2000, 0)?;
    show(out, -2000, 0)?;
    show(out, 1999, 1)?;
    show(out, -1999, 3)?;
    show(out, 2000, 7)?;
    show(out, -2000, 5)?;
    show(out, 3, 2)?;
    show(out, -3, 6)?;
    show(out, 1, 4)?;
    show(out, 0, 1)?;
    show(out, 0, 2)?;
    show(out, 0, 3)?;
    show(out, 0, 4)?;
    show(out, 0, 5)?;
    show(out, 0, 6)?;
    show(out, 0, 7)?;
    show(out, 1, 1)?;
    show(out, 2, 3)?;
    show(out, -2000, 1)?;
    show(out, -1999, 0)?;
    show(out, 1999, 4)?;
    show(out, 103, 0)?;
    show(out, 104, 5)?;
    show(out, 105, 2)?;
    show(out, -31, 7)?;
    show(out, 2001, 0)?;
    show(out, -2001, 3)?;
    show(out, 2147483647, 6)?;
    show(out, -2147483648, 9)?;
    show(out, 7, 13)?;
    show(out, -8, 255)
}
