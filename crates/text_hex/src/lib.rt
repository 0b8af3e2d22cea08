// Bytes as two digits of base 16, put as crate `text` puts numbers.
#![tactic(auto)]

ghost use Rattle.std.specs.Prelude.{◌≡◌, ◌<◌};
ghost use Rattle.text.specs.Pages.{Puts};
ghost use Rattle.text_hex.specs.Hex.{hex_digit, hex_with, hex, small_hex};

use text::Page;

// The last digit of a number in base 16, with the letters from a given one on.
fn hex_digit(letter: u8, n: u8) -> u8
    requires { letter < 128 }
    ensures { result ≡ hex_digit letter n }
{
    let d = n % 16;
    if d < 10 {
        return b'0' + d;
    }
    letter + (d - 10)
}

// A byte as two digits of base 16.
fn put_hex_with(page: &mut Page, letter: u8, byte: u8)
    requires { letter < 128 }
    ensures { Puts page.old (hex_with letter byte) page.new }
{
    page.put_byte(hex_digit(letter, byte / 16));
    page.put_byte(hex_digit(letter, byte));
}

// A byte as two digits of base 16, in capitals.
pub fn put_hex(page: &mut Page, byte: u8)
    ensures { Puts page.old (hex byte) page.new }
{
    put_hex_with(page, b'A', byte);
}

// A byte as two digits of base 16, in small letters.
pub fn put_small_hex(page: &mut Page, byte: u8)
    ensures { Puts page.old (small_hex byte) page.new }
{
    put_hex_with(page, b'a', byte);
}
