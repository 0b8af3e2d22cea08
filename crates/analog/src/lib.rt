// Readings of the analog side but voltages: temperatures and which half degrees are out of range, PWM duty.
#![tactic(auto)]

ghost use Rattle.std.specs.Prelude.{◌≡◌, ◌<◌};
ghost use Rattle.bits.specs.Bits.{choose};
ghost use Rattle.numbers.specs.TwosComplement.{half8, half9, signed_of, code_of, level_of, TwosComplement};
ghost use Rattle.analog.specs.Temperature.{nine_bits, outside, half_code_of, half_answer, NineBits};
ghost use Rattle.analog.specs.Pwm.{pwm_parts};

use numbers::twos_complement::{Width, code_of, level, signed};

pub mod voltages;

// The half degrees that sensors 2 and 3 have.
const LOWEST: i16 = -256;

const HIGHEST: i16 = 255;

// Bit 7 of a byte, and half of the whole degrees that a byte has.
const BIT_7: u8 = 128;

// The PWM byte that is always on, and all the parts of its cycle.
const FULL_DUTY: u8 = 255;

const ALL_PARTS: u16 = 256;

// The whole degrees of a byte.
pub fn whole_degrees(code: u8) -> i8
    ensures { (result ≡ signed_of half8 code) × TwosComplement }
{
    code.cast_signed()
}

// The byte of whole degrees.
pub fn whole_code(degrees: i8) -> u8
    ensures { result ≡ code_of half8 degrees }
{
    degrees.cast_unsigned()
}

// The level of a byte, 0 at -128 degrees: levels compare as the degrees do.
pub fn whole_level(code: u8) -> u8
    ensures { result ≡ level_of half8 code }
{
    code.wrapping_add(BIT_7)
}

// The two bytes of a temperature in half degrees.
#[derive(Clone, Copy, PartialEq, Eq, Debug)]
pub struct HalfCode {
    pub high: u8,
    pub low: u8,
}

impl HalfCode {
    // Its nine bits: the high byte, and bit 7 of the low one.
    fn nine_bits(self) -> u16
        ensures { (result ≡ nine_bits self.high self.low) × (result < 512) }
    {
        2 * (self.high as u16) + (self.low / BIT_7) as u16
    }

    // Its half degrees.
    #[tactic(auto, using(crate::proofs::Halves::nine_bits_hold))]
    pub fn degrees(self) -> i16
        ensures { (result ≡ signed_of half9 (nine_bits self.high self.low)) × TwosComplement × NineBits }
    {
        signed(Width::Nine, self.nine_bits())
    }

    // Its level, 0 at -256 half degrees: levels compare as the half degrees do.
    pub fn level(self) -> u16
        ensures { result ≡ level_of half9 (nine_bits self.high self.low) }
    {
        level(Width::Nine, self.nine_bits())
    }
}

// Whether half degrees are outside -256 to 255.
#[tactic(auto, using(crate::proofs::Halves::within))]
pub fn is_outside(halves: i16) -> bool
    ensures { result ≡ outside halves }
{
    !(LOWEST..=HIGHEST).contains(&halves)
}

// The two bytes of half degrees; refused as 3, by None, exactly outside -256 to 255.
#[tactic(auto, unfolding(crate::specs::Temperature::half_code_of))]
pub fn half_code(halves: i16) -> Option<HalfCode>
    ensures equation { result ≡ half_code_of halves }
    ensures answer { half_answer result ≡ choose (outside halves) 3 0 }
{
    if is_outside(halves) {
        return None;
    }
    let code = code_of(Width::Nine, halves);
    Some(HalfCode {
        high: (code / 2) as u8,
        low: (code % 2) as u8 * BIT_7,
    })
}

// How many of 256 parts a PWM byte is on.
pub fn pwm_parts(x: u8) -> u16
    ensures { result ≡ pwm_parts x }
{
    if x == FULL_DUTY {
        return ALL_PARTS;
    }
    x as u16
}
