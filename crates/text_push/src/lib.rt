// Text on a page, all or nothing: a `push` that does not fit is refused and leaves every byte and the place. Each first
// puts its characters on a page of one byte, which tells where they end.
#![tactic(auto)]

ghost use Rattle.std.specs.Prelude.{List, ℕ};
ghost use Rattle.std.specs.Borrow.{MutBor};
ghost use Rattle.text.specs.Pages.{Puts};
ghost use Rattle.text.specs.declared.Page.{Page};
ghost use Rattle.text_push.specs.Pushed.{PutsOnEach, IsPushed, Pushes};
ghost use Rattle.text.specs.Numbers.{decimal, Decimals, places, Places, signed, Signs, signed_places};
ghost use Rattle.text_hex.specs.Hex.{capital, small, hex, small_hex, Hexes};

use text::Page;
use text_hex::{put_hex, put_small_hex};

// There is no room for all of what was to be pushed.
#[derive(Clone, Copy, PartialEq, Eq, Debug)]
pub struct Full;

// What a put would put, where all of it fits.
fn push<F: Fn(&mut Page)>(page: &mut Page, put: F) -> Result<(), Full>
    requires { F.IsAlwaysCallable put }
    ensures { (w : List ℕ) → PutsOnEach (λ o n. F.post put o tt n) w → IsPushed page.old w page.new result }
{
    let mut one = [0u8; 1];
    let mut trial = Page {
        out: &mut one,
        at: page.at,
    };
    put(&mut trial);
    if trial.at > page.out.len() {
        return Err(Full);
    }
    put(page);
    Ok(())
}

// The bytes of a word.
pub fn push_bytes(page: &mut Page, word: &[u8]) -> Result<(), Full>
    ensures { IsPushed page.old word.now page.new result × Pushes }
{
    push(page, |p| p.put_bytes(word))
}

// A number, without leading zeros.
pub fn push_decimal(page: &mut Page, n: u64) -> Result<(), Full>
    ensures { IsPushed page.old (decimal n) page.new result × Decimals }
{
    push(page, |p| p.put_decimal(n))
}

// A number with so many of its digits after a point; no point where they are none.
pub fn push_places(page: &mut Page, n: u64, digits: u8) -> Result<(), Full>
    ensures { IsPushed page.old (places digits n) page.new result × Places }
{
    push(page, |p| p.put_places(n, digits))
}

// A signed number, "-" before one below 0.
pub fn push_signed(page: &mut Page, z: i64) -> Result<(), Full>
    ensures { IsPushed page.old (signed z) page.new result × Signs }
{
    push(page, |p| p.put_signed(z))
}

// A signed number with so many of its digits after a point.
pub fn push_signed_places(page: &mut Page, z: i64, digits: u8) -> Result<(), Full>
    ensures { IsPushed page.old (signed_places digits z) page.new result }
{
    push(page, |p| p.put_signed_places(z, digits))
}

// A byte as two digits of base 16, in capitals.
pub fn push_hex(page: &mut Page, byte: u8) -> Result<(), Full>
    ensures { IsPushed page.old (hex byte) page.new result × Hexes capital }
{
    push(page, |p| put_hex(p, byte))
}

// A byte as two digits of base 16, in small letters.
pub fn push_small_hex(page: &mut Page, byte: u8) -> Result<(), Full>
    ensures { IsPushed page.old (small_hex byte) page.new result × Hexes small }
{
    push(page, |p| put_small_hex(p, byte))
}
