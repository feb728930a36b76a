// Inner: numbers as text, written to a writer, for the programs.
#![tactic(auto)]

ghost use Rattle.std.specs.Prelude.{OnOk, false, [], ◌∷◌, ◌++◌, ◌%◌};
ghost use Rattle.std.specs.Io.KnownBytes.{Appends};
ghost use Rattle.std.specs.Fmt.{decimal, digits};
ghost use Rattle.output.specs.Inner.Padded.{zero_padded};

use std::io;
use std::io::Write;

// The decimal digits of a number.
pub fn number<W: Write>(out: &mut W, n: u64) -> io::Result<()>
    ensures { OnOk result (Appends (W.contents out.old) (W.contents out.new) (decimal n)) }
{
    write!(out, "{n}")
}

// The decimal digits of a number, and the space behind them.
pub fn spaced<W: Write>(out: &mut W, n: u64) -> io::Result<()>
    ensures { OnOk result (Appends (W.contents out.old) (W.contents out.new) (decimal n ++ (32 ∷ []))) }
{
    write!(out, "{n} ")
}

// The lower half of a digest as eight hexadecimal digits, and the end of the line.
pub fn digest<W: Write>(out: &mut W, h: u64) -> io::Result<()>
    ensures { OnOk result (Appends (W.contents out.old) (W.contents out.new) (zero_padded 8 (digits 16 false (h % 4294967296)) ++ (10 ∷ []))) }
{
    let low = h % 4294967296;
    write!(out, "{low:08x}\n")
}

// The hexadecimal digits of a number, with zeros in front up to a width.
pub fn hexadecimal<W: Write>(out: &mut W, n: u64, width: usize) -> io::Result<()>
    ensures { OnOk result (Appends (W.contents out.old) (W.contents out.new) (zero_padded width (digits 16 false n))) }
{
    write!(out, "{n:0width$x}")
}
