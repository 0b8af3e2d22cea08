// Temperatures with an offset, their quotients by a step, and two more modes over the steps of `sensor`: one-time
// status and ACPI output. Nothing here is of one chip.
#![tactic(auto)]

ghost use Rattle.std.specs.Prelude.{◌≡◌};
ghost use Rattle.thermal.specs.Offset.{held_sum, HeldSum};
ghost use Rattle.thermal.specs.Quotient.{quotient_by, has_moved, QuotientDown, MovedExactly};
ghost use Rattle.thermal.specs.Modes.{status_by, output_by, OneTimeStatus, AcpiOutput};

use sensor::{Mark, Mode, Output, Status, is_hot, mark_if, output_step, status_step};

// How a sensor's status goes by its mark. One-time: the steps of the two-times mode, of which only the rise latches.
#[derive(Clone, Copy)]
pub enum StatusMode {
    Plain(Mode),
    OneTime,
}

// How a sensor's OVT output goes. ACPI: asserted by a sample whose quotient moved, released by every other; the mark is
// that of comparator mode.
#[derive(Clone, Copy)]
pub enum OutputMode {
    Plain(Mode),
    Acpi,
}

// A sample's temperature plus its offset, held within -128 to 127.
pub fn held_sum(sample: i8, offset: i8) -> i8
    ensures equation { result ≡ held_sum sample offset }
    ensures claims { HeldSum }
{
    sample.saturating_add(offset)
}

// Degrees divided by a step, rounded down; 0 for step 0.
pub fn quotient(degrees: i8, step: u8) -> i8
    ensures equation { result ≡ quotient_by step degrees }
    ensures claims { QuotientDown }
{
    if step == 0 {
        return 0;
    }
    (degrees as i16).div_euclid(step as i16) as i8
}

// Whether the latest quotient is another than the kept one; with step 0 it never is.
pub fn has_moved(step: u8, kept: i8, latest: i8) -> bool
    ensures equation { result ≡ has_moved step kept latest }
    ensures claims { MovedExactly }
{
    step != 0 && kept != latest
}

// The status step of one sensor at a sample, above its over limit or not, below its hysteresis or not.
pub fn status_by(mode: StatusMode, mark: Mark, above: bool, below: bool) -> Status
    ensures equation { result ≡ status_by mode mark above below }
    ensures claims { OneTimeStatus }
{
    match mode {
        StatusMode::Plain(plain) => status_step(plain, mark, above, below),
        StatusMode::OneTime => Status {
            latched: !is_hot(mark) && above,
            ..status_step(Mode::Interrupt, mark, above, below)
        },
    }
}

// The OVT step of one sensor at a sample, whose quotient moved or not.
pub fn output_by(mode: OutputMode, output: Output, above: bool, below: bool, moved: bool) -> Output
    ensures equation { result ≡ output_by mode output above below moved }
    ensures claims { AcpiOutput }
{
    match mode {
        OutputMode::Plain(plain) => output_step(plain, output, above, below),
        OutputMode::Acpi => Output {
            mark: mark_if(above),
            asserted: moved,
        },
    }
}
