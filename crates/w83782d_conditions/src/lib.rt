// What a sample finds in the registers with the readings stored: rails, fans and
// temperatures against their limits, and modes.
#![tactic(auto)]

ghost use Rattle.std.specs.Prelude.{◌≡◌, false, [], ◌∷◌, ◌<◌, ◌≤◌, ◌+◌, ltb};
ghost use Rattle.bits.specs.Bits.{word};
ghost use Rattle.w83782d_map.specs.Map.{cells};
ghost use Rattle.limits.specs.Limits.{half_level_at};
ghost use Rattle.w83782d_conditions.specs.Conditions.{is_outside, is_slow, mode_if};
ghost use Rattle.w83782d_conditions.specs.Conditions.{comparison, comparison_of, remote_comparison_of};
ghost use Rattle.w83782d_conditions.specs.ConditionParts.{compared_in};

use analog::{HalfCode, whole_level};
use bits::{Bit, is_on, pack};
use fan::Divided;
use sensor::Mode;
use w83782d_map::{
    CELLS, FAN_COUNTS, FAN_LIMITS, OVT_PROPERTY, SENSOR_1, SENSOR_1_HYSTERESIS, SENSOR_1_OVER,
    SENSOR_HYSTERESIS, SENSOR_OVER, VCOREA, VCOREA_HIGH, VCOREA_LOW,
};
use w83782d_registers::{bank_cell, is_interrupt};

// ---- Conditions

// Both limits are looked at, without a branch for each.
#[tactic(auto, unfolding(crate::specs::Conditions::is_outside))]
fn outside(s: &[u8; CELLS], i: usize) -> bool
    requires { i < 7 }
    ensures { result ≡ is_outside s.now i }
{
    let v = s[VCOREA + i];
    (s[VCOREA_HIGH + 2 * i] < v) | (v < s[VCOREA_LOW + 2 * i])
}

#[tactic(auto, unfolding(crate::specs::Conditions::is_slow))]
fn slow(s: &[u8; CELLS], f: usize) -> bool
    requires { f < 4 }
    ensures { result ≡ is_slow s.now f }
{
    Divided(s[FAN_COUNTS + f]).rings(s[FAN_LIMITS + f])
}

// Nine bits from a cell, as a level.
fn half_level_at(s: &[u8; CELLS], c: usize) -> u16
    requires { c + 1 < cells }
    ensures { result ≡ half_level_at s.now c }
{
    HalfCode {
        high: s[c],
        low: s[c + 1],
    }
    .level()
}

// ---- The bits of 41h and 59h, and of 42h and 5Ah: rails and fans, as the real-time bits show them

fn first_byte(s: &[u8; CELLS]) -> u8
    ensures { result
        ≡ word (is_outside s.now 0 ∷ is_outside s.now 1 ∷ is_outside s.now 2
        ∷ is_outside s.now 3 ∷ false ∷ false ∷ is_slow s.now 1 ∷ is_slow s.now 2 ∷ []) }
{
    pack(
        outside(s, 0),
        outside(s, 1),
        outside(s, 2),
        outside(s, 3),
        false,
        false,
        slow(s, 1),
        slow(s, 2),
    )
}

// The chassis bit, bit 4, is the latch itself and not stored.
fn second_byte(s: &[u8; CELLS]) -> u8
    ensures { result
        ≡ word (is_outside s.now 4 ∷ is_outside s.now 5 ∷ is_outside s.now 6
        ∷ is_slow s.now 3 ∷ false ∷ false ∷ false ∷ false ∷ []) }
{
    pack(
        outside(s, 4),
        outside(s, 5),
        outside(s, 6),
        slow(s, 3),
        false,
        false,
        false,
        false,
    )
}

// ---- Modes

fn mode_if(comparator: bool) -> Mode
    ensures { result ≡ mode_if comparator }
{
    if comparator {
        Mode::Comparator
    } else {
        Mode::Interrupt
    }
}

// ---- Sensors

// A sensor's status mode, and its temperature against its limits.
#[derive(Clone, Copy)]
pub struct Comparison {
    pub mode: Mode,
    pub above: bool,
    pub below: bool,
}

// Sensor 2 or 3, with the mode of its OVT output.
#[derive(Clone, Copy)]
pub struct RemoteComparison {
    pub status: Comparison,
    pub output: Mode,
}

impl Comparison {
    // By levels.
    fn new(mode: Mode, t: u16, over: u16, hysteresis: u16) -> Self
        ensures { result ≡ comparison mode (ltb over t) (ltb t hysteresis) }
    {
        Comparison {
            mode,
            above: over < t,
            below: t < hysteresis,
        }
    }
}

fn compare_sensor1(s: &[u8; CELLS]) -> Comparison
    ensures { result ≡ comparison_of s.now 1 }
{
    Comparison::new(
        mode_if(s[SENSOR_1_HYSTERESIS] == 127),
        whole_level(s[SENSOR_1]) as u16,
        whole_level(s[SENSOR_1_OVER]) as u16,
        whole_level(s[SENSOR_1_HYSTERESIS]) as u16,
    )
}

// Sensor 2 or 3.
fn compare_remote(s: &[u8; CELLS], sensor: usize) -> RemoteComparison
    requires { 2 ≤ sensor }
    ensures { result ≡ remote_comparison_of s.now sensor }
{
    let bank = bank_cell(sensor);
    let status = Comparison::new(
        mode_if(is_on(s[OVT_PROPERTY], Bit::B6)),
        half_level_at(s, bank),
        half_level_at(s, bank + SENSOR_OVER),
        half_level_at(s, bank + SENSOR_HYSTERESIS),
    );
    RemoteComparison {
        status,
        output: mode_if(!is_interrupt(s, sensor)),
    }
}

// ---- What a sample finds

// The bits of rails and fans in both bytes, the sensors' bits off; sensor 1, and sensors 2 and 3.
#[derive(Clone, Copy)]
pub struct Compared {
    pub first: u8,
    pub second: u8,
    pub sensor1: Comparison,
    pub remote: [RemoteComparison; 2],
}

// The readings against their limits, and the modes. In a slice that is not of 112 cells nothing is found.
#[tactic(auto, unfolding(crate::specs::Conditions::compared_of))]
pub fn compare(s: &[u8]) -> Compared
    ensures { result ≡ compared_in s.now }
{
    let Ok(s) = <&[u8; CELLS]>::try_from(s) else {
        let status = Comparison {
            mode: Mode::Interrupt,
            above: false,
            below: false,
        };
        let remote = RemoteComparison {
            status,
            output: Mode::Interrupt,
        };
        return Compared {
            first: 0,
            second: 0,
            sensor1: status,
            remote: [remote; 2],
        };
    };
    Compared {
        first: first_byte(s),
        second: second_byte(s),
        sensor1: compare_sensor1(s),
        remote: [compare_remote(s, 2), compare_remote(s, 3)],
    }
}
