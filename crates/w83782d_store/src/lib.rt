// What a sample stores, in place on the registers' slice, and whether it is taken at all:
// seven codes, three temperatures and three counts by the divisors now set; refusals 3 and 4.
#![tactic(auto)]

ghost use Rattle.std.specs.Prelude.{◌≡◌, ◌≤◌};
ghost use Rattle.answers.specs.Refusals.{answer_of};
ghost use Rattle.bits.specs.Fields.{places_of};
ghost use Rattle.fan.specs.Count.{value_of, stored_of};
ghost use Rattle.w83782d_store.specs.Stored.{divisor_places, divisor_of, is_stopped, sample_answer};
ghost use Rattle.w83782d_store.specs.StoredParts.{field_of, with_counts, with_codes, with_halves, stored_in};

use analog::{HalfCode, half_code, is_outside, whole_code};
use answers::Refusal;
use bits::fields::{Field, Place};
use bits::{Bit, cell, is_on};
use fan::{Divisor, Undivided};
use w83782d_layout::samples::Sample;
use w83782d_map::{
    CELLS, CONFIGURATION, FAN_COUNTS, MINUS_5, MINUS_12, PIN_CONTROL, PLUS_3_3, PLUS_5, PLUS_12,
    SENSOR_1, SENSOR_2, SENSOR_3, VBAT_FAN_DIVISOR, VCOREA, VID_FAN_DIVISOR, VINR0,
};

// ---- Readings

// Where the three bits of a fan's divisor lie; of a number above 2, fan 3's.
pub fn divisor_field(f: usize) -> Field
    ensures { places_of result ≡ divisor_places f }
{
    match f {
        1 => field(VID_FAN_DIVISOR, Bit::B4, Bit::B5, Bit::B5),
        2 => field(VID_FAN_DIVISOR, Bit::B6, Bit::B7, Bit::B6),
        _ => field(PIN_CONTROL, Bit::B6, Bit::B7, Bit::B7),
    }
}

// Two bits in one cell, and the top one in 5Dh.
fn field(cell: usize, low: Bit, middle: Bit, high: Bit) -> Field
    ensures { result ≡ field_of cell low middle high }
{
    Field {
        low: Place { cell, bit: low },
        middle: Place { cell, bit: middle },
        high: Place {
            cell: VBAT_FAN_DIVISOR,
            bit: high,
        },
    }
}

// The count to store for a fan, by the divisor now set.
fn count(s: &[u8; CELLS], f: usize, u: Undivided) -> u8
    ensures { result ≡ stored_of u.0 (value_of (divisor_of s.now f)) }
{
    u.divided_by(Divisor::gathered(s, divisor_field(f))).0
}

#[tactic(auto, unfolding(crate::specs::StoredParts::with_counts))]
fn store_counts(s: &mut [u8; CELLS], x: Sample)
    ensures { s.new ≡ with_counts s.old x }
{
    let counts = [
        count(s, 1, x.counts[0]),
        count(s, 2, x.counts[1]),
        count(s, 3, x.counts[2]),
    ];
    s[FAN_COUNTS + 1..FAN_COUNTS + 4].copy_from_slice(&counts);
}

// Code by code: copied as a slice they are taken apart again to be compared, nine instructions more a sample.
#[tactic(auto, unfolding(crate::specs::StoredParts::with_codes))]
fn store_codes(s: &mut [u8; CELLS], x: Sample)
    ensures { s.new ≡ with_codes s.old x }
{
    s[VCOREA] = x.codes[0];
    s[VINR0] = x.codes[1];
    s[PLUS_3_3] = x.codes[2];
    s[PLUS_5] = x.codes[3];
    s[PLUS_12] = x.codes[4];
    s[MINUS_12] = x.codes[5];
    s[MINUS_5] = x.codes[6];
    s[SENSOR_1] = whole_code(x.sensor1);
}

// The two bytes of a sensor's half degrees; out of range they are 0, and such a sample is refused.
#[tactic(auto, unfolding(crate::specs::StoredParts::with_halves))]
fn store_halves(s: &mut [u8; CELLS], bank: usize, halves: i16)
    requires { bank ≤ 80 }
    ensures { s.new ≡ with_halves s.old bank halves }
{
    let code = half_code(halves).unwrap_or(HalfCode { high: 0, low: 0 });
    s[bank] = code.high;
    s[bank + 1] = code.low;
}

// The readings of a sample stored. A slice that is not of 112 cells stays.
pub fn store(s: &mut [u8], x: Sample)
    ensures { s.new ≡ stored_in s.old x }
{
    let Some(cells) = s.as_mut_array::<CELLS>() else {
        return;
    };
    store_counts(cells, x);
    store_codes(cells, x);
    store_halves(cells, SENSOR_2, x.remote[0]);
    store_halves(cells, SENSOR_3, x.remote[1]);
}

// ---- The answer

fn stopped(configuration: u8) -> bool
    ensures { result ≡ is_stopped configuration }
{
    !is_on(configuration, Bit::B0) || is_on(configuration, Bit::B3)
}

// The answer to a sample.
#[tactic(auto, unfolding(crate::specs::Stored::sample_answer))]
pub fn answer_to(s: &[u8], x: Sample) -> Result<(), Refusal>
    ensures { answer_of result ≡ sample_answer s.now x }
{
    if is_outside(x.remote[0]) || is_outside(x.remote[1]) {
        return Err(Refusal::BadTemperature);
    }
    if stopped(cell(s, CONFIGURATION)) {
        return Err(Refusal::Stopped);
    }
    Ok(())
}
