// Fans: counts as counted and after division, the eight divisors and where their bits lie, and the speed reading.
#![tactic(auto)]

ghost use Rattle.std.specs.Prelude.{◌≡◌, ◌<◌, ◌%◌, ◌^◌};
ghost use Rattle.fan.specs.Count.{exponent_of, value_of, from_bits, stored_of, over_limit};
ghost use Rattle.bits.specs.Fields.{places_of};
ghost use Rattle.fan.specs.Divisors.{divisor_at, with_divisor, Fields};
ghost use Rattle.fan.specs.Speed.{count_speed, SpeedClaims};

pub mod planner;

use answers::Refusal;
use bits::fields::{Field, gather, replace};
use numbers::rounding::rounded;

// What a fan at one turn a minute counts: plans are in whole rpm.
pub const PER_MINUTE: u32 = 1350000;

// What a fan at a tenth of a turn a minute counts: readings are in tenths of rpm.
pub const PER_TENTH: u32 = 13500000;

// The largest count that a byte holds: a stored count stops there.
const FULL: u8 = 255;

// A count as counted. It is never compared with a limit.
#[derive(Clone, Copy)]
pub struct Undivided(pub u32);

// A count after division, as a fan's count register holds it.
#[derive(Clone, Copy)]
pub struct Divided(pub u8);

// One of the eight divisors. Its three bits are its discriminant, the exponent of the power of 2 that it divides by.
#[derive(Clone, Copy, PartialEq, Eq, Debug)]
pub enum Divisor {
    By1 = 0,
    By2 = 1,
    By4 = 2,
    By8 = 3,
    By16 = 4,
    By32 = 5,
    By64 = 6,
    By128 = 7,
}

// A divisor and a limit, which ring at a speed and below; one that was planned has a limit of 0 to 254.
#[derive(Clone, Copy, PartialEq, Eq, Debug)]
pub struct Plan {
    pub divisor: Divisor,
    pub limit: u8,
}

// What reading a fan's speed answers.
#[derive(Clone, Copy, PartialEq, Eq, Debug)]
pub enum Speed {
    // Tenths of a turn a minute.
    Tenths(u32),
    // The count is 0.
    TooFast,
    // The count is full.
    TooSlow,
    // No such fan, or a slice that is not the registers'.
    Refused(Refusal),
}

impl Divisor {
    // The divisor of the low three bits.
    pub fn from_bits(bits: u8) -> Self
        ensures { (result ≡ from_bits bits) × (exponent_of result ≡ bits % 8) }
    {
        // No array of the eight: the compiler would build it on the stack, and of this it makes one instruction.
        match bits % 8 {
            0 => Divisor::By1,
            1 => Divisor::By2,
            2 => Divisor::By4,
            3 => Divisor::By8,
            4 => Divisor::By16,
            5 => Divisor::By32,
            6 => Divisor::By64,
            _ => Divisor::By128,
        }
    }

    // Its three bits.
    pub fn exponent(self) -> u8
        ensures { result ≡ exponent_of self }
    {
        self as u8
    }

    // The number that it divides by, 1 to 128.
    pub fn value(self) -> u8
        ensures { result ≡ value_of self }
    {
        1u8 << self.exponent()
    }

    // The divisor whose three bits lie at the places of a field.
    pub fn gathered(s: &[u8], field: Field) -> Self
        ensures { result ≡ divisor_at s.now (places_of field) }
    {
        Divisor::from_bits(gather(s, field))
    }

    // Its three bits put at the places of a field; every other bit of every cell stays.
    pub fn put(self, s: &mut [u8], field: Field)
        ensures equation { s.new ≡ with_divisor s.old (places_of field) self }
        ensures laws { Fields }
    {
        let bits = self.exponent();
        replace(s, field, bits);
    }
}

impl Undivided {
    // The stored count: divided, rounded down, at most full.
    pub fn divided_by(self, divisor: Divisor) -> Divided
        ensures { result.0 ≡ stored_of self.0 (value_of divisor) }
    {
        let quotient = self.0 / (divisor.value() as u32);
        Divided(quotient.min(FULL as u32) as u8)
    }
}

impl Divided {
    // Whether a stored count is above its limit.
    pub fn rings(self, limit: u8) -> bool
        ensures { result ≡ over_limit self.0 limit }
    {
        limit < self.0
    }

    // The speed that a stored count and the divisor now set say; never refused.
    pub fn speed(self, divisor: Divisor) -> Speed
        ensures equation { result ≡ count_speed self.0 (value_of divisor) }
        ensures claims { SpeedClaims }
    {
        match self.0 {
            0 => Speed::TooFast,
            FULL => Speed::TooSlow,
            count => Speed::Tenths(rounded(PER_TENTH, (count as u32) * (divisor.value() as u32))),
        }
    }
}
