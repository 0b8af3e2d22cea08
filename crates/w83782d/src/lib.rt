// The hardware monitor W83782D by value: each event takes the monitor and hands it back with the answer.
// The work is done in place by the crates below; each method takes registers and latches out and wraps that call.
#![tactic(auto)]

ghost use Rattle.std.specs.Prelude.{◌≡◌};
ghost use Rattle.w83782d_claims.specs.BusClaims.{WriteClaims, ReadClaims, OpenedClaims};
ghost use Rattle.w83782d_claims.specs.SampleClaims.{SampleClaims};
ghost use Rattle.w83782d_plan.specs.Claims.{PlanClaims};
ghost use Rattle.w83782d_claims.specs.Alarm.{AlarmRings, SetsAlarm, SampleRings};
ghost use Rattle.w83782d_events.specs.Events.{EventCalls};
ghost use Rattle.w83782d_events.specs.Latched.{StatusClaims};
ghost use Rattle.w83782d_events.specs.Looks.{LookClaims};
ghost use Rattle.w83782d_latches.specs.Ovt.{ovt_of};
ghost use Rattle.w83782d_readings.specs.Outputs.{smi_of, standing_alarms, AlarmsCounted};
ghost use Rattle.w83782d_readings.specs.Readings.{voltage_of, speed_of, temperature_of, duty_of};
ghost use Rattle.w83782d.specs.Monitor.{state_of, of_outcome, answer_as, shown_as};
ghost use Rattle.w83782d.specs.Monitor.{power_on_of, write_of, look_of, read_of, sample_of, opened_of, set_plan_of};
ghost use Rattle.w83782d.specs.Monitor.{apply_of};
ghost use Rattle.w83782d.specs.Alarm.{MonitorCalls};

use analog::voltages::Resistors;
use answers::Refusal;
use fan::Speed;
use w83782d_bus::{Outcome, look_in, power_on_in, read_in, write_in};
use w83782d_latches::Latches;
use w83782d_layout::samples::Sample;
use w83782d_plan::set_plan_in;
use w83782d_readings::outputs::outputs_of;
use w83782d_record::Event;
use w83782d_replay::take_in;
use w83782d_sample::sample_in;

// The registers, a cell for each, and what they do not hold.
#[derive(Clone, Copy)]
pub struct Monitor {
    pub registers: [u8; 112],
    pub latches: Latches,
}

// The monitor after an event, and the answer, with the byte that a read or a look shows.
#[derive(Clone, Copy)]
pub struct Answered<T> {
    pub monitor: Monitor,
    pub answer: Result<T, Refusal>,
}

impl<T: Copy> Answered<T> {
    // The registers that a call in place left, with its outcome.
    fn of(registers: [u8; 112], done: Outcome<T>) -> Self
        ensures { result ≡ of_outcome registers done }
    {
        Answered {
            monitor: Monitor {
                registers,
                latches: done.latches,
            },
            answer: done.answer,
        }
    }
}

// The registers are taken out of the monitor and then lent: a function that lends a field of `self` gets no proof.
impl Monitor {
    // As power-on leaves it.
    pub fn power_on() -> Self
        ensures { result ≡ power_on_of }
    {
        let mut registers = [0u8; 112];
        let done = power_on_in(&mut registers);
        Monitor {
            registers,
            latches: done.latches,
        }
    }

    // A bus write: answered 0, or 1 or 2 with the monitor as it was.
    pub fn write(mut self, index: u8, value: u8) -> Answered<()>
        ensures equation { answer_as result ≡ write_of self index value }
        ensures claims { WriteClaims (state_of self) index value }
    {
        let mut registers = self.registers;
        let done = write_in(&mut registers, self.latches, index, value);
        Answered::of(registers, done)
    }

    // A look: answered as a bus read would be, 0 with its byte or 1 without one, and the monitor as it was.
    pub fn look(self, index: u8) -> Answered<u8>
        ensures equation { shown_as result ≡ look_of self index }
        ensures claims { LookClaims }
    {
        let answer = look_in(&self.registers, self.latches.chassis, index);
        Answered {
            monitor: self,
            answer,
        }
    }

    // A bus read: answered 0 with the byte, or 1 with the monitor as it was.
    pub fn read(mut self, index: u8) -> Answered<u8>
        ensures equation { shown_as result ≡ read_of self index }
        ensures claims { ReadClaims (state_of self) index }
    {
        let mut registers = self.registers;
        let done = read_in(&mut registers, self.latches, index);
        Answered::of(registers, done)
    }

    // The chassis was opened: always answered 0.
    pub fn chassis_opened(mut self) -> Answered<()>
        ensures equation { answer_as result ≡ opened_of self }
        ensures claims { OpenedClaims (state_of self) (state_of result.monitor) }
    {
        let outcome = Outcome {
            latches: self.latches.opened(),
            answer: Ok(()),
        };
        Answered::of(self.registers, outcome)
    }

    // A sample: answered 0, or 3 or 4 with the monitor as it was.
    pub fn sample(mut self, x: Sample) -> Answered<()>
        ensures equation { answer_as result ≡ sample_of self x }
        ensures claims { SampleClaims (state_of self) x }
        ensures rings { SampleRings (state_of self) x }
    {
        let mut registers = self.registers;
        let done = sample_in(&mut registers, self.latches, x);
        let outcome = Outcome {
            latches: done.latches,
            answer: done.answer.and(Ok(())),
        };
        Answered::of(registers, outcome)
    }

    // An alarm for a fan, 1 to 3, at a speed of 1 to 1,350,000 turns a minute: answered 0, or 7 or 6 with the monitor
    // as it was. What that means for this fan, speed and monitor is `SetsAlarm`; over every list of calls,
    // `AlarmRings`; that those calls are these methods, and lists of them, `MonitorCalls`.
    pub fn set_plan(mut self, fan: u8, rpm: u32) -> Answered<()>
        ensures equation { answer_as result ≡ set_plan_of self fan rpm }
        ensures claims { PlanClaims (state_of self) fan rpm }
        ensures own { SetsAlarm (state_of self) fan rpm }
        ensures alarm { AlarmRings }
        ensures calls { MonitorCalls }
    {
        let mut registers = self.registers;
        let done = set_plan_in(&mut registers, self.latches, fan, rpm);
        Answered::of(registers, done)
    }

    // Any event: its answer, and the byte of an accepted read, else 0. A refused event leaves the monitor as it was.
    pub fn apply(mut self, event: Event) -> Answered<u8>
        ensures equation { shown_as result ≡ apply_of self event }
        ensures calls { EventCalls }
        ensures status { StatusClaims (state_of self) event.kind event.sample }
    {
        let mut registers = self.registers;
        let done = take_in(&mut registers, self.latches, event);
        Answered::of(registers, done)
    }

    // Whether SMI is asserted.
    #[tactic(auto, unfolding(w83782d_readings::specs::Outputs::outputs_of))]
    pub fn smi(self) -> bool
        ensures { result ≡ smi_of self.registers self.latches.chassis }
    {
        match outputs_of(&self.registers, self.latches.chassis) {
            Ok(outputs) => outputs.smi,
            Err(_) => false,
        }
    }

    // The number of standing alarms.
    #[tactic(auto, unfolding(w83782d_readings::specs::Outputs::outputs_of))]
    pub fn standing_alarms(self) -> u32
        ensures equation { result ≡ standing_alarms self.registers self.latches.chassis }
        ensures claims { AlarmsCounted }
    {
        match outputs_of(&self.registers, self.latches.chassis) {
            Ok(outputs) => u32::from(outputs.alarms),
            Err(_) => 0,
        }
    }

    // Whether the OVT output of sensor 2 or 3 is asserted; any other sensor is refused as 7.
    pub fn ovt(self, sensor: u8) -> Result<bool, Refusal>
        ensures { result ≡ ovt_of self.latches sensor }
    {
        self.latches.ovt(sensor)
    }

    // The millivolts of a voltage channel, 0 to 6, with the resistors of the negative rails; any other is refused as 7.
    pub fn voltage(self, channel: u8, resistors: Resistors) -> Result<i32, Refusal>
        ensures { result ≡ voltage_of self.registers channel resistors.r5 resistors.r6 }
    {
        w83782d_readings::voltage(&self.registers, channel, resistors)
    }

    // The speed of a fan, 1 to 3, in tenths of rpm, by its stored count and the divisor now set; any other is refused
    // as 7.
    pub fn speed(self, fan: u8) -> Speed
        ensures { result ≡ speed_of self.registers fan }
    {
        w83782d_readings::speed(&self.registers, fan)
    }

    // The half degrees of a temperature sensor, 1 to 3; any other is refused as 7.
    pub fn temperature(self, sensor: u8) -> Result<i16, Refusal>
        ensures { result ≡ temperature_of self.registers sensor }
    {
        w83782d_readings::temperature_of(&self.registers, sensor)
    }

    // How many of 256 parts PWM output 1 to 4 is on; any other is refused as 7.
    pub fn duty(self, output: u8) -> Result<u16, Refusal>
        ensures { result ≡ duty_of self.registers output }
    {
        w83782d_readings::duty_of(&self.registers, output)
    }
}
