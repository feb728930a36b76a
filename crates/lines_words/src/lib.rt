// Words and numbers in decimal, written as bytes into a lent area.
#![tactic(auto)]

ghost use Rattle.std.specs.Prelude.{◌≡◌, [], ◌∷◌, nat_abs};
ghost use Rattle.lines_words.specs.Inner.Writer.{Lays};
ghost use Rattle.lines_words.specs.Text.{digits, signed_text};

// A lent area, and the place of its next byte. Beyond the area's end bytes are dropped, and the place counts them all the same.
#[derive(Drop)]
pub struct Text<'a> {
    area: &'a mut [u8],
    at: usize,
}

// A signed number without its sign.
pub fn size(n: i32) -> u64
    ensures { result ≡ nat_abs n }
{
    if n < 0 {
        return (-(n as i64)) as u64;
    }
    n as u64
}

impl<'a> Text<'a> {
    // No byte is written yet.
    pub fn over(area: &'a mut [u8]) -> Text<'a>
        ensures same { result.area.ghost_name ≡ area.entry.ghost_name }
        ensures begun { (result.area.now ≡ area.old) × (result.at ≡ 0) }
    {
        Text { area, at: 0 }
    }

    // No byte is written yet; the first goes to this place, which may lie beyond the area's end.
    pub fn at(area: &'a mut [u8], at: usize) -> Text<'a>
        ensures same { result.area.ghost_name ≡ area.entry.ghost_name }
        ensures begun { (result.area.now ≡ area.old) × (result.at ≡ at) }
    {
        Text { area, at }
    }

    // The place behind what was written.
    pub fn place(&self) -> usize
        ensures { result ≡ self.now.at }
    {
        self.at
    }

    // One byte.
    fn byte(&mut self, b: u8)
        ensures { Lays self.old (b ∷ []) self.new }
    {
        let at = self.at;
        if at < self.area.len() {
            self.area[at] = b;
        }
        self.at = at.saturating_add(1);
    }

    // The bytes of a word.
    pub fn word(&mut self, word: &[u8])
        ensures { Lays self.old word.now self.new }
    {
        for b in word {
            self.byte(*b);
        }
    }

    // A number in decimal: the digits of a tenth of it, then its last digit.
    pub fn number(&mut self, n: u64)
        ensures { Lays self.old (digits n) self.new }
    {
        let digit = 48 + (n % 10) as u8;
        if n >= 10 {
            self.number(n / 10);
        }
        self.byte(digit);
    }

    // A number in decimal, with a minus sign where it is negative.
    pub fn signed(&mut self, n: i32)
        ensures { Lays self.old (signed_text n) self.new }
    {
        if n < 0 {
            self.word(b"-");
        }
        self.number(size(n));
    }
}
