// What the registers do not hold: the chassis latch and the sensors' marks and outputs, by
// value, and what power-on, a reset, a write, a read and a chassis event leave of them.
#![tactic(auto)]

ghost use Rattle.std.specs.Prelude.{◌≡◌, ◌≤◌, [], ◌∷◌};
ghost use Rattle.bits.specs.Bits.{choose};
ghost use Rattle.sensor.specs.Sensor.{armed};
ghost use Rattle.sensor.specs.declared.Mark.TheVariants.{Armed};
ghost use Rattle.w83782d_registers.specs.Registers.{is_interrupt};
ghost use Rattle.w83782d_latches.specs.Effects.{latches, power_on_latches, reset_latches, written_latches};
ghost use Rattle.w83782d_latches.specs.Effects.{with_released, read_latches, opened_latches};
ghost use Rattle.w83782d_latches.specs.Ovt.{ovt_of, OvtClaims};

use answers::Refusal;
use sensor::{Mark, Remote};
use w83782d_map::{CHASSIS_CLEAR, CONFIGURATION, SENSOR_2, SENSOR_3};
use w83782d_registers::{is_command, is_interrupt};

// What the registers do not hold: the chassis latch, the status mark of sensor 1, and sensors 2 and 3.
#[derive(Clone, Copy)]
pub struct Latches {
    pub chassis: bool,
    pub sensor1: Mark,
    pub remote: [Remote; 2],
}

impl Latches {
    // As power-on and a reset leave all but the chassis latch: armed, released.
    fn armed(chassis: bool) -> Self
        ensures { result ≡ latches chassis Armed (armed ∷ armed ∷ []) }
    {
        Latches {
            chassis,
            sensor1: Mark::Armed,
            remote: [Remote::armed(); 2],
        }
    }

    // As power-on leaves them: closed, armed, released.
    pub fn power_on() -> Self
        ensures { result ≡ power_on_latches }
    {
        Latches::armed(false)
    }

    // As a reset leaves them: all but the chassis latch.
    fn reset(self) -> Self
        ensures { result ≡ reset_latches self }
    {
        Latches::armed(self.chassis)
    }

    // A chassis event.
    pub fn opened(self) -> Self
        ensures { result ≡ opened_latches self }
    {
        Latches {
            chassis: true,
            ..self
        }
    }

    // Whether the OVT output of sensor 2 or 3 is asserted; any other sensor is refused as 7.
    #[tactic(auto, unfolding(crate::specs::Ovt::ovt_of))]
    pub fn ovt(self, sensor: u8) -> Result<bool, Refusal>
        ensures equation { result ≡ ovt_of self sensor }
        ensures claims { OvtClaims }
    {
        match sensor {
            2 | 3 => Ok(self.remote[usize::from(sensor - 2)].output.asserted),
            _ => Err(Refusal::NoChannel),
        }
    }

    // The OVT output of sensor 2 or 3 released.
    fn released(mut self, sensor: usize) -> Self
        requires { (2 ≤ sensor) × (sensor ≤ 3) }
        ensures { result ≡ with_released self sensor }
    {
        let n = sensor - 2;
        self.remote[n] = self.remote[n].released();
        self
    }
}

// The latches after an accepted write to a cell.
#[tactic(auto, unfolding(crate::specs::Effects::written_latches))]
pub fn write_latches(l: Latches, cell: usize, value: u8) -> Latches
    ensures { result ≡ written_latches l cell value }
{
    if is_command(CONFIGURATION, cell, value) {
        l.reset()
    } else if is_command(CHASSIS_CLEAR, cell, value) {
        Latches {
            chassis: false,
            ..l
        }
    } else {
        l
    }
}

// After a read of the value of sensor 2 or 3: in interrupt mode its OVT output is released.
fn acknowledged(s: &[u8], l: Latches, sensor: usize) -> Latches
    requires { (2 ≤ sensor) × (sensor ≤ 3) }
    ensures { result ≡ choose (is_interrupt s.now sensor) (with_released l sensor) l }
{
    if is_interrupt(s, sensor) {
        l.released(sensor)
    } else {
        l
    }
}

// The latches after a read of a cell.
#[tactic(auto, unfolding(crate::specs::Effects::read_latches))]
pub fn read_latches(s: &[u8], l: Latches, cell: usize) -> Latches
    ensures { result ≡ read_latches s.now l cell }
{
    match cell {
        SENSOR_2 => acknowledged(s, l, 2),
        SENSOR_3 => acknowledged(s, l, 3),
        _ => l,
    }
}
