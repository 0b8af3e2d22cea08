// Fields of three bits that lie anywhere in the registers: gathered, and replaced.
// Nothing here is of one chip. A cell beyond the slice reads 0, and a store to it does nothing.
ghost use Rattle.std.specs.Prelude.{◌≡◌, [], ◌∷◌, ◌*◌, ◌%◌, ◌^◌, get_or};
ghost use Rattle.bits.specs.Bits.{bit, number_of, change, changes};
ghost use Rattle.bits.specs.Fields.{gather_of, replace_of, places_of};

use crate::{Bit, bit_of, cell, store};

// Where one bit lies: its cell, and its number there.
#[derive(Clone, Copy, PartialEq, Eq, Debug)]
pub struct Place {
    pub cell: usize,
    pub bit: Bit,
}

// A field of three bits, lowest first.
#[derive(Clone, Copy, PartialEq, Eq, Debug)]
pub struct Field {
    pub low: Place,
    pub middle: Place,
    pub high: Place,
}

// The bit at a place.
fn bit_at(s: &[u8], p: Place) -> u8
    ensures { result ≡ bit (get_or s.now p.cell 0) (number_of p.bit) }
{
    bit_of(cell(s, p.cell), p.bit)
}

// The value of a field, 0 to 7.
pub fn gather(s: &[u8], f: Field) -> u8
    ensures { result ≡ gather_of s.now (places_of f) }
{
    bit_at(s, f.low) | (bit_at(s, f.middle) << 1) | (bit_at(s, f.high) << 2)
}

// The lowest bit of a number, put at a place.
fn put_bit(s: &mut [u8], p: Place, digit: u8)
    ensures { s.new ≡ changes s.old
        (change p.cell (2 ^ number_of p.bit) (digit % 2 * 2 ^ number_of p.bit) ∷ []) }
{
    let j = p.bit.number();
    store(s, p.cell, 1 << j, (digit & 1) << j);
}

// A field given the lowest three bits of a value; every other bit of every cell stays.
pub fn replace(s: &mut [u8], f: Field, value: u8)
    ensures { s.new ≡ replace_of s.old (places_of f) value }
{
    put_bit(s, f.low, value);
    put_bit(s, f.middle, value >> 1);
    put_bit(s, f.high, value >> 2);
}
