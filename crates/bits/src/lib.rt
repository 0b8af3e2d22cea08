// Bits of bytes: one bit, a merge by mask, a store of some bits of a cell, flags packed into a byte.
// Nothing here is of one chip. A cell beyond the slice reads 0, and a store to it does nothing.
#![tactic(auto)]

ghost use Rattle.std.specs.Prelude.{◌≡◌, [], ◌∷◌, get_or, set};
ghost use Rattle.std.proofs.lemmas.List.Edits.{sets};
ghost use Rattle.bits.specs.Bits.{bit, number_of, is_on, in_set, merge_of, change, changes, flag_of, word};

pub mod fields;

// The number of a bit of a byte: no other can be written.
#[derive(Clone, Copy, PartialEq, Eq, Debug)]
pub enum Bit {
    B0 = 0,
    B1,
    B2,
    B3,
    B4,
    B5,
    B6,
    B7,
}

impl Bit {
    // 0 to 7.
    pub fn number(self) -> u8
        ensures { result ≡ number_of self }
    {
        self as u8
    }
}

// One bit of a byte, 0 or 1.
#[tactic(auto, using(crate::proofs::BitLaws::low_digit), unfolding(crate::specs::Bits::bit))]
pub fn bit_of(byte: u8, b: Bit) -> u8
    ensures { result ≡ bit byte (number_of b) }
{
    (byte >> b.number()) & 1
}

// Whether a bit of a byte is 1.
pub fn is_on(byte: u8, b: Bit) -> bool
    ensures { result ≡ is_on byte (number_of b) }
{
    bit_of(byte, b) == 1
}

// A set of numbers below 128, such as cells, by two words of bits: it costs no memory.
#[derive(Clone, Copy, PartialEq, Eq, Debug)]
pub struct CellSet {
    pub low: u64,
    pub high: u64,
}

impl CellSet {
    #[tactic(auto, unfolding(crate::specs::Bits::bit))]
    pub fn contains(self, number: usize) -> bool
        ensures { result ≡ in_set self.low self.high number }
    {
        if number < 64 {
            (self.low >> number) % 2 == 1
        } else if number < 128 {
            (self.high >> (number - 64)) % 2 == 1
        } else {
            false
        }
    }
}

// The bits of the mask from the byte, every other bit from the old byte.
#[tactic(auto, unfolding(crate::specs::Bits::merge_of))]
pub fn merge(old: u8, mask: u8, byte: u8) -> u8
    ensures { result ≡ merge_of old mask byte }
{
    (old & !mask) | (byte & mask)
}

// The byte of a cell; 0 beyond the slice.
pub fn cell(s: &[u8], at: usize) -> u8
    ensures { result ≡ get_or s.now at 0 }
{
    s.get(at).copied().unwrap_or(0)
}

// A byte stored in a cell.
pub fn put(s: &mut [u8], at: usize, byte: u8)
    ensures { s.new ≡ set s.old at byte }
{
    if at < s.len() {
        s[at] = byte;
    }
}

// Bytes stored from a cell on, as far as the slice goes. Each is tested by itself: of a copy of slices, and of a loop
// that is one, the compiler makes a call of memcpy, which no archive for C is to need.
pub fn put_all(s: &mut [u8], at: usize, bytes: &[u8])
    ensures { s.new ≡ sets s.old at bytes.now }
{
    if s.len() <= at {
        return;
    }
    for i in 0..bytes.len() {
        put(s, at + i, bytes[i]);
    }
}

// The bits of the mask, in one cell, from the byte.
#[tactic(auto, unfolding(crate::specs::Bits::changes))]
pub fn store(s: &mut [u8], cell: usize, mask: u8, byte: u8)
    ensures { s.new ≡ changes s.old (change cell mask byte ∷ []) }
{
    if cell < s.len() {
        s[cell] = merge(s[cell], mask, byte);
    }
}

// A flag as a bit.
pub fn flag(on: bool) -> u8
    ensures { result ≡ flag_of on }
{
    u8::from(on)
}

// Eight flags as a byte, the first in bit 0.
pub fn pack(a: bool, b: bool, c: bool, d: bool, e: bool, f: bool, g: bool, h: bool) -> u8
    ensures { result ≡ word (a ∷ b ∷ c ∷ d ∷ e ∷ f ∷ g ∷ h ∷ []) }
{
    flag(a)
        | flag(b) << 1
        | flag(c) << 2
        | flag(d) << 3
        | flag(e) << 4
        | flag(f) << 5
        | flag(g) << 6
        | flag(h) << 7
}
