// Voltages: the millivolts of a code on a channel, by the resistors of the negative rails.
ghost use Rattle.std.specs.Prelude.{◌≡◌, ◌^◌, ◌<◌, pos, ◌-ℤ◌, ◌&&◌};
ghost use Rattle.analog.specs.Readings.{nearest_z, is_resistor, rail_of, millivolts_of, VoltageAnswers};

use numbers::rounding::rounded;

// The largest resistor that is taken, in kilo-ohm.
const MOST_KILO_OHM: u32 = 1000;

// Millivolts of one step of a code at the pin, and of the reference that the negative rails hang from.
const STEP: u32 = 16;

const REFERENCE: u32 = 3600;

// The +5 and +12 inputs are behind dividers: a code is this many millivolts, over this.
const PLUS_5: u32 = 672;

const PLUS_5_OVER: u32 = 25;

const PLUS_12: u32 = 304;

const PLUS_12_OVER: u32 = 5;

// The resistors of a negative rail's divider, in kilo-ohm.
#[derive(Clone, Copy, PartialEq, Eq, Debug)]
pub struct Resistors {
    pub r5: u32,
    pub r6: u32,
}

// (a - b) / d, nearest, halves away from zero.
fn quotient(a: u32, b: u32, d: u32) -> i32
    requires { (a < 2 ^ 28) × (b < 2 ^ 28) × (0 < d) × (d < 2 ^ 28) }
    ensures { result ≡ nearest_z (pos a -ℤ pos b) d }
{
    if a < b {
        return 0 - rounded(b - a, d) as i32;
    }
    rounded(a - b, d) as i32
}

// Whether a resistor is a whole 1 to 1,000 kilo-ohm.
fn is_resistor(resistor: u32) -> bool
    ensures { result ≡ is_resistor resistor }
{
    (1..=MOST_KILO_OHM).contains(&resistor)
}

impl Resistors {
    // Whether both are a whole 1 to 1,000 kilo-ohm.
    fn are_in_range(self) -> bool
        ensures { result ≡ (is_resistor self.r5 && is_resistor self.r6) }
    {
        is_resistor(self.r5) && is_resistor(self.r6)
    }
}

// The millivolts of -12 or -5; None where a resistor is out of range.
#[tactic(auto, using(crate::proofs::voltages::Voltages::rail_le), unfolding(crate::specs::Readings::rail_of))]
fn rail(code: u8, resistors: Resistors) -> Option<i32>
    ensures { result ≡ rail_of code resistors.r5 resistors.r6 }
{
    if !resistors.are_in_range() {
        return None;
    }
    let Resistors { r5, r6 } = resistors;
    Some(quotient(STEP * (code as u32) * (r5 + r6), REFERENCE * r5, r6))
}

// The millivolts of a code on a channel: VCOREA, VINR0, +3.3, +5, +12, -12, -5 from 0.
// The resistors count for the last two only. None: no such channel, or a resistor out of range.
#[tactic(auto, using(crate::proofs::voltages::Voltages::answers_hold), unfolding(crate::specs::Readings::millivolts_of))]
pub fn millivolts(channel: u8, code: u8, resistors: Resistors) -> Option<i32>
    ensures { (result ≡ millivolts_of channel code resistors.r5 resistors.r6) × VoltageAnswers }
{
    let c = code as u32;
    match channel {
        0..=2 => Some(quotient(STEP * c, 0, 1)),
        3 => Some(quotient(PLUS_5 * c, 0, PLUS_5_OVER)),
        4 => Some(quotient(PLUS_12 * c, 0, PLUS_12_OVER)),
        5..=6 => rail(code, resistors),
        _ => None,
    }
}
