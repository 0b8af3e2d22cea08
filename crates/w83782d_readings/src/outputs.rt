// What the monitor says besides its registers: SMI and the number of standing alarms, from the bytes that reads show.
// The registers' slice is left as it is; a slice that is not of 112 cells is refused as 8.
ghost use Rattle.std.specs.Prelude.{◌≡◌, ◌≤◌};
ghost use Rattle.w83782d_readings.specs.Outputs.{smi_of, standing_alarms, outputs_of, AlarmsCounted};

use crate::registers;
use answers::Refusal;
use bits::{Bit, is_on};
use status::{alarm_count, any_unmasked};
use w83782d_map::{
    CELLS, CONFIGURATION, INTERRUPT_STATUS_1, INTERRUPT_STATUS_2, SMI_MASK_1, SMI_MASK_2,
};
use w83782d_registers::with_chassis;

// Whether SMI is asserted, and the number of standing alarms.
#[derive(Clone, Copy, PartialEq, Eq, Debug)]
pub struct Outputs {
    pub smi: bool,
    pub alarms: u8,
}

// Whether SMI is asserted.
#[tactic(auto, unfolding(crate::specs::Outputs::smi_of))]
fn smi(s: &[u8; CELLS], chassis: bool) -> bool
    ensures { result ≡ smi_of s.now chassis }
{
    let first = s[INTERRUPT_STATUS_1];
    let second = with_chassis(s[INTERRUPT_STATUS_2], chassis);
    is_on(s[CONFIGURATION], Bit::B1)
        && !is_on(s[CONFIGURATION], Bit::B3)
        && any_unmasked(first, s[SMI_MASK_1], second, s[SMI_MASK_2])
}

// The number of standing alarms: the set bits of 41h and 42h.
#[tactic(auto, unfolding(crate::specs::Outputs::standing_alarms))]
fn standing_alarms(s: &[u8; CELLS], chassis: bool) -> u32
    ensures count { result ≡ standing_alarms s.now chassis }
    ensures few { result ≤ 16 }
{
    let second = with_chassis(s[INTERRUPT_STATUS_2], chassis);
    alarm_count(s[INTERRUPT_STATUS_1], second)
}

// SMI and the number of standing alarms; a slice that is not of 112 cells is refused as 8.
#[tactic(auto, using(crate::proofs::outputs::Cases::alarms_counted_all), unfolding(crate::specs::Outputs::outputs_of))]
pub fn outputs_of(s: &[u8], chassis: bool) -> Result<Outputs, Refusal>
    ensures equation { result ≡ outputs_of s.now chassis }
    ensures claims { AlarmsCounted }
{
    let s = registers(s)?;
    Ok(Outputs {
        smi: smi(s, chassis),
        alarms: standing_alarms(s, chassis) as u8,
    })
}
