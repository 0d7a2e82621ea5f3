// The script cursor: a place in a line, and the steps that read on from it.
ghost use Rattle.std.specs.Prelude.{◌≡◌, ◌≢◌, ◌<◌, None, MatchOption};
ghost use Rattle.script.specs.Reading.{LetterAt, NumberAt, LineEndAt, digit_at, more, ended};

// A place in a line.
#[derive(Clone, Copy)]
pub struct Cursor {
    pub at: usize,
}

impl Cursor {
    pub const START: Cursor = Cursor { at: 0 };

    // Reads a capital letter: the letter, and the place after it.
    pub fn letter(self, line: &[u8]) -> Option<(u8, Cursor)>
        ensures { LetterAt line.now self.at result }
    {
        let at = self.at;
        let &letter = line.get(at)?;
        if !letter.is_ascii_uppercase() {
            return None;
        }
        Some((letter, Cursor { at: at + 1 }))
    }

    // Reads a single space and a decimal number, 0 to 9999 without leading zeros: the number, and the place after it.
    pub fn number(self, line: &[u8]) -> Option<(usize, Cursor)>
        ensures { NumberAt line.now self.at result }
    {
        let at = self.at;
        if *line.get(at)? != b' ' {
            return None;
        }
        let first = digit(line, at + 1)?;
        let one = Digits {
            value: first,
            at: at + 2,
        };
        if first == 0 {
            return one.ended(line);
        }
        // most numbers are short: it stops where no digit follows
        let Some(two) = one.more(line) else {
            return Some(one.read());
        };
        let Some(three) = two.more(line) else {
            return Some(two.read());
        };
        let Some(four) = three.more(line) else {
            return Some(three.read());
        };
        four.ended(line)
    }

    // Reads the line's end, to the place after it: a newline, or nothing where the text is over. "The last may lack it."
    pub fn line_end(self, line: &[u8]) -> Option<Cursor>
        ensures { LineEndAt line.now self.at result }
    {
        let at = self.at;
        match line.get(at) {
            None => Some(self),
            Some(b'\n') => Some(Cursor { at: at + 1 }),
            Some(_) => None,
        }
    }
}

// The digits of a number as far as they are read: its value, and the place after them.
#[derive(Clone, Copy)]
struct Digits {
    value: usize,
    at: usize,
}

impl Digits {
    // With the digit that follows them, if one does.
    fn more(self, line: &[u8]) -> Option<Digits>
        requires { self.value < 1000 }
        ensures { MatchOption result (digit_at line.now self.at ≡ None) (λ d. (digit_at line.now self.at ≢ None) × (d ≡ more line.now self)) }
    {
        let d = digit(line, self.at)?;
        Some(Digits {
            value: self.value * 10 + d,
            at: self.at + 1,
        })
    }

    // The number that they are, and the place after it.
    fn read(self) -> (usize, Cursor)
        ensures { result ≡ (self.value, record { at = self.at }) }
    {
        (self.value, Cursor { at: self.at })
    }

    // The number that they are and the place after it, unless a digit follows.
    fn ended(self, line: &[u8]) -> Option<(usize, Cursor)>
        ensures { result ≡ ended line.now self }
    {
        match digit(line, self.at) {
            Some(_) => None,
            None => Some(self.read()),
        }
    }
}

// The value of the digit at a place, if one stands there.
fn digit(line: &[u8], at: usize) -> Option<usize>
    ensures { result ≡ digit_at line.now at }
{
    let &b = line.get(at)?;
    if !b.is_ascii_digit() {
        return None;
    }
    Some((b - b'0') as usize)
}
