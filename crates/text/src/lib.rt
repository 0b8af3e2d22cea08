// Text in a lent buffer. A page is the buffer and the place where the next character goes. A `put` writes as far as the
// buffer goes and moves the place behind its characters, also past the buffer's end: so puts follow one another with no
// test between them, and the last place tells whether all of it fitted. Crate `text_hex` has digits of base 16, and
// `text_push` has pushes, which write all of their characters or none.
#![tactic(auto)]

ghost use Rattle.std.specs.Prelude.{◌≡◌, [], ◌∷◌};
ghost use Rattle.text.specs.Pages.{Puts};
ghost use Rattle.text.specs.Numbers.{digit, decimal, spaced, places, pointed, signed, signed_places};

use bits::put_all;

// A number of 64 bits has no more digits.
const DIGITS: usize = 20;

// The last digit of a number.
fn last_digit(n: u64) -> u8
    ensures { result ≡ digit n }
{
    b'0' + (n % 10) as u8
}

#[derive(Drop)]
pub struct Page<'a> {
    pub out: &'a mut [u8],
    pub at: usize,
}

impl<'a> Page<'a> {
    // One character.
    pub fn put_byte(&mut self, byte: u8)
        ensures { Puts self.old (byte ∷ []) self.new }
    {
        if self.at < self.out.len() {
            self.out[self.at] = byte;
        }
        self.at = self.at.saturating_add(1);
    }

    // The bytes of a word.
    pub fn put_bytes(&mut self, word: &[u8])
        ensures { Puts self.old word.now self.new }
    {
        put_all(self.out, self.at, word);
        self.at = self.at.saturating_add(word.len());
    }

    // A number, without leading zeros.
    pub fn put_decimal(&mut self, n: u64)
        ensures { Puts self.old (decimal n) self.new }
    {
        // One digit needs no buffer, and most numbers that programs print have one.
        if n < 10 {
            self.put_byte(last_digit(n));
            return;
        }
        let mut digits = [0; DIGITS];
        let mut first = DIGITS - 1;
        let mut rest = n;
        while rest >= 10 {
            digits[first] = last_digit(rest);
            first -= 1;
            rest /= 10;
        }
        digits[first] = last_digit(rest);
        self.put_bytes(&digits[first..]);
    }

    // The same behind a space.
    pub fn put_spaced(&mut self, n: u64)
        ensures { Puts self.old (spaced n) self.new }
    {
        self.put_byte(b' ');
        self.put_decimal(n);
    }

    // A number and a point, with so many digits of it behind the point.
    fn put_pointed(&mut self, n: u64, digits: u8)
        ensures { Puts self.old (pointed digits n) self.new }
    {
        if digits == 0 {
            self.put_decimal(n);
            self.put_byte(b'.');
            return;
        }
        self.put_pointed(n / 10, digits - 1);
        self.put_byte(last_digit(n));
    }

    // A number with so many of its digits after a point: 44118 with 1 is "4411.8". No point where they are none.
    pub fn put_places(&mut self, n: u64, digits: u8)
        ensures { Puts self.old (places digits n) self.new }
    {
        if digits == 0 {
            self.put_decimal(n);
            return;
        }
        self.put_pointed(n, digits);
    }

    // A signed number, "-" before one below 0.
    pub fn put_signed(&mut self, z: i64)
        ensures { Puts self.old (signed z) self.new }
    {
        self.put_signed_places(z, 0);
    }

    // A signed number with so many of its digits after a point: -1 with 1 is "-0.1".
    pub fn put_signed_places(&mut self, z: i64, digits: u8)
        ensures { Puts self.old (signed_places digits z) self.new }
    {
        if z < 0 {
            self.put_byte(b'-');
        }
        self.put_places(z.unsigned_abs(), digits);
    }
}
