// Text: bytes and decimal numbers put into a lent output.
//
// A `Text` is such an output with the place up to which it is written. Each `put_..` puts its bytes there and moves the end on;
// what stands before and beyond stays as it was. None tests for room when it runs: its contract asks for it, 4 bytes for a number of
// 0 to 9999. What is put leaves one text (`puts_one`, proofs/Putting.antt). Writing out is the program's.
//
// specs/Text.antt has how a number is spelled, for those who put it and for `script`, which reads it; proofs/Decimal.antt that no two
// are spelled the same.
//
// `newline` finds where a line ends, for those who cut a text into lines.
#![tactic(auto)]

ghost use Rattle.std.specs.Prelude.{◌≡◌, [], ◌∷◌, ◌+◌, ◌≤◌, ◌<◌, length};
ghost use Rattle.text.specs.Text.{SPACE, NEWLINE, decimal};
ghost use Rattle.text.specs.Puts.{Adds, digit_of};
ghost use Rattle.text.specs.Newline.{index_of, slice};

// A lent output, and the place after what is put into it.
#[derive(Drop)]
pub struct Text<'a> {
    pub bytes: &'a mut [u8],
    pub end: usize,
}

impl Text<'_> {
    // Puts a byte.
    pub fn put_byte(&mut self, b: u8)
        requires { self.old.end < length self.old.bytes.now }
        ensures { Adds self.old self.new (b ∷ []) }
    {
        self.bytes[self.end] = b;
        self.end += 1;
    }

    // Puts a number in decimal.
    pub fn put_number(&mut self, n: usize)
        requires { (n ≤ 9999) × (self.old.end + 4 ≤ length self.old.bytes.now) }
        ensures { Adds self.old self.new (decimal n) }
    {
        self.put_digit(1000, n);
        self.put_digit(100, n);
        self.put_digit(10, n);
        self.put_byte(b'0' + (n % 10) as u8);
    }

    // Puts the digit of n that counts units, unless n is below one.
    fn put_digit(&mut self, unit: usize, n: usize)
        requires { (self.old.end < length self.old.bytes.now) × (1 ≤ unit) }
        ensures { Adds self.old self.new (digit_of unit n) }
    {
        if n >= unit {
            self.put_byte(b'0' + (n / unit % 10) as u8);
        }
    }

    // Puts a space and a number.
    pub fn put_spaced(&mut self, n: usize)
        requires { (n ≤ 9999) × (self.old.end + 5 ≤ length self.old.bytes.now) }
        ensures { Adds self.old self.new (SPACE ∷ decimal n) }
    {
        self.put_byte(b' ');
        self.put_number(n);
    }
}

// Where the first newline of the first n bytes stands from `at` on, or n.
pub fn newline(text: &[u8], at: usize, n: usize) -> usize
    requires from { at ≤ n }
    requires inside { n ≤ length text.now }
    ensures first { result ≡ at + index_of NEWLINE (slice at n text.now) }
    ensures within { result ≤ n }
{
    match (at..n).find(|&i| text[i] == b'\n') {
        Some(i) => i,
        None => n,
    }
}
