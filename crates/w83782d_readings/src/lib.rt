// The readings of the stored values: millivolts, speeds, temperatures, PWM duties.
// The registers' slice is left as it is; a slice that is not of 112 cells is refused as 8.
#![tactic(auto)]

ghost use Rattle.std.specs.Prelude.{◌≡◌, ◌≢◌, length, MatchResult};
ghost use Rattle.answers.specs.declared.Refusal.TheVariants.{WrongLength};
ghost use Rattle.w83782d_map.specs.Map.{cells};
ghost use Rattle.w83782d_readings.specs.Readings.{voltage_of, speed_of, temperature_of, duty_of};
ghost use Rattle.w83782d_readings.specs.Claims.{ReadingClaims};

pub mod outputs;

use analog::voltages::{Resistors, millivolts};
use analog::{HalfCode, pwm_parts};
use answers::Refusal;
use bits::cell;
use fan::{Divided, Divisor, Speed};
use w83782d_map::{
    CELLS, FAN_COUNTS, PWM_DUTY_1, PWM_DUTY_2, PWM_DUTY_3, PWM_DUTY_4, SENSOR_1, VCOREA,
};
use w83782d_registers::bank_cell;
use w83782d_store::divisor_field;

// A slice as the registers; refused as 8 where it is not of 112 cells.
fn registers(s: &[u8]) -> Result<&[u8; CELLS], Refusal>
    ensures { MatchResult result (λ r. (r.now ≡ s.now) × (length s.now ≡ cells))
        (λ e. (e ≡ WrongLength) × (length s.now ≢ cells)) }
{
    <&[u8; CELLS]>::try_from(s).map_err(|_| Refusal::WrongLength)
}

// The millivolts of a voltage channel, 0 to 6, with the resistors of the negative rails.
#[tactic(auto, using(crate::proofs::Answers::reading_claims), unfolding(crate::specs::Readings::voltage_of))]
pub fn voltage(s: &[u8], channel: u8, resistors: Resistors) -> Result<i32, Refusal>
    ensures equation { result ≡ voltage_of s.now channel resistors.r5 resistors.r6 }
    ensures claims { ReadingClaims }
{
    let s = registers(s)?;
    let code = cell(s, VCOREA + channel as usize);
    millivolts(channel, code, resistors).ok_or(Refusal::NoChannel)
}

// The speed of a fan, 1 to 3, in tenths of rpm, by its stored count and the divisor now set.
#[tactic(auto, using(crate::proofs::Answers::reading_claims), unfolding(crate::specs::Readings::speed_of, crate::specs::Readings::speed_at))]
pub fn speed(s: &[u8], fan: u8) -> Speed
    ensures equation { result ≡ speed_of s.now fan }
    ensures claims { ReadingClaims }
{
    let s = match registers(s) {
        Ok(s) => s,
        Err(refusal) => return Speed::Refused(refusal),
    };
    if !(1..=3).contains(&fan) {
        return Speed::Refused(Refusal::NoChannel);
    }
    let f = fan as usize;
    let divisor = Divisor::gathered(s, divisor_field(f));
    Divided(s[FAN_COUNTS + f]).speed(divisor)
}

// The temperature of a sensor, 1 to 3, in half degrees; sensor 1's whole degrees doubled.
#[tactic(auto, using(crate::proofs::Answers::reading_claims), unfolding(crate::specs::Readings::temperature_of, crate::specs::Readings::temperature_at))]
pub fn temperature_of(s: &[u8], sensor: u8) -> Result<i16, Refusal>
    ensures equation { result ≡ temperature_of s.now sensor }
    ensures claims { ReadingClaims }
{
    let s = registers(s)?;
    match sensor {
        1 => Ok(HalfCode {
            high: s[SENSOR_1],
            low: 0,
        }
        .degrees()),
        2 | 3 => {
            let bank = bank_cell(sensor as usize);
            Ok(HalfCode {
                high: s[bank],
                low: s[bank + 1],
            }
            .degrees())
        }
        _ => Err(Refusal::NoChannel),
    }
}

// How many of 256 parts PWM output 1 to 4 is on.
#[tactic(auto, using(crate::proofs::Answers::reading_claims), unfolding(crate::specs::Readings::duty_of, crate::specs::Readings::duty_at))]
pub fn duty_of(s: &[u8], output: u8) -> Result<u16, Refusal>
    ensures equation { result ≡ duty_of s.now output }
    ensures claims { ReadingClaims }
{
    let s = registers(s)?;
    let duty = match output {
        1 => s[PWM_DUTY_1],
        2 => s[PWM_DUTY_2],
        3 => s[PWM_DUTY_3],
        4 => s[PWM_DUTY_4],
        _ => return Err(Refusal::NoChannel),
    };
    Ok(pwm_parts(duty))
}
