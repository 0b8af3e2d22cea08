// Flags kept as bytes, eight at a time as one number, the first lowest: a byte of 0 is a flag that is off,
// any other one that is on; written as 0 or 1. As one number they cost a load, a few steps and a store.
#![tactic(auto)]

ghost use Rattle.std.specs.Prelude.{◌≡◌, [], ◌∷◌, ◌*◌};
ghost use Rattle.bits.specs.Bits.{number_of, is_on, flag_of};
ghost use Rattle.flags.specs.Bytes.{joined, flags_of, flags_at, put_eight};

use bits::{Bit, flag};

// The seven low bits of each of eight bytes, and the top ones.
const LOW: u64 = 0x7f7f_7f7f_7f7f_7f7f;

const TOP: u64 = 0x8080_8080_8080_8080;

// Each of eight bytes as its flag is written. Adding 127 to the seven low bits carries
// into the top one unless all are 0, and never beyond the byte.
pub fn normalised(bytes: u64) -> u64
    ensures { result ≡ flags_of bytes }
{
    ((((bytes & LOW) + LOW) | bytes) & TOP) >> 7
}

// Whether one of eight flags is on, of flags as they are written.
pub fn is_flag(flags: u64, n: Bit) -> bool
    ensures { result ≡ is_on flags (8 * number_of n) }
{
    let place = 8 * n.number();
    (flags >> place) % 2 == 1
}

// Eight flags as they are written.
pub fn join(a: bool, b: bool, c: bool, d: bool, e: bool, f: bool, g: bool, h: bool) -> u64
    ensures { result
        ≡ joined (flag_of a ∷ flag_of b ∷ flag_of c ∷ flag_of d ∷ flag_of e ∷ flag_of f ∷ flag_of g ∷ flag_of h ∷ []) }
{
    u64::from_le_bytes([
        flag(a),
        flag(b),
        flag(c),
        flag(d),
        flag(e),
        flag(f),
        flag(g),
        flag(h),
    ])
}

// ---- Eight bytes of a slice

// Eight flags from a place on, each as it is written; all off in a slice that has not so many bytes.
pub fn flags_at(s: &[u8], at: usize) -> u64
    ensures { result ≡ flags_at s.now at }
{
    if s.len() < 8 || s.len() - 8 < at {
        return 0;
    }
    let Ok(bytes) = <[u8; 8]>::try_from(&s[at..at + 8]) else {
        return 0;
    };
    normalised(u64::from_le_bytes(bytes))
}

// Eight bytes stored from a place on; a slice that has not so many stays.
pub fn put_eight(s: &mut [u8], at: usize, bytes: u64)
    ensures { s.new ≡ put_eight s.old at bytes }
{
    if s.len() < 8 || s.len() - 8 < at {
        return;
    }
    let eight = bytes.to_le_bytes();
    s[at..at + 8].copy_from_slice(&eight);
}
