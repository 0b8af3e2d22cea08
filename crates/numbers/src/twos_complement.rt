// Two's complement of eight, nine and sixteen bits: codes as signed numbers and back, and levels, which compare as the
// signed numbers do.
ghost use Rattle.std.specs.Prelude.{◌≡◌, ◌*◌, ◌<◌, ◌≤◌};
ghost use Rattle.numbers.specs.TwosComplement.{half_of, signed_of, code_of, level_of, TwosComplement};

// How many bits a code has.
#[derive(Clone, Copy)]
pub enum Width {
    Eight,
    Nine,
    Sixteen,
}

// Half the range of the codes.
fn half_of(width: Width) -> u16
    ensures { (result ≡ half_of width) × (0 < result) × (result ≤ 32768) }
{
    match width {
        Width::Eight => 128,
        Width::Nine => 256,
        Width::Sixteen => 32768,
    }
}

// A code as a signed number: in the upper half it is -1 less what is left up to the last code. 0 where it is no code.
pub fn signed(width: Width, code: u16) -> i16
    ensures { (result ≡ signed_of (half_of width) code) × TwosComplement }
{
    let half = half_of(width);
    if code < half {
        return code as i16;
    }
    let over = code - half;
    if over < half {
        return -1 - (half - 1 - over) as i16;
    }
    0
}

// The code of a signed number; 0 where it is below what the width holds.
pub fn code_of(width: Width, z: i16) -> u16
    ensures { result ≡ code_of (half_of width) z }
{
    if z < 0 {
        let half = half_of(width);
        let last = half - 1 + half;
        let down = (-1 - z) as u16;
        if down <= last {
            return last - down;
        }
        return 0;
    }
    z as u16
}

// The level of a code: 0 for the lowest number.
pub fn level(width: Width, code: u16) -> u16
    ensures { (result ≡ level_of (half_of width) code) × (result < 2 * half_of width) }
{
    let half = half_of(width) as u32;
    ((code as u32 + half) % (2 * half)) as u16
}
