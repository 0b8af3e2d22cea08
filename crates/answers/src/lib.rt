// Why a call is refused, and the number of an answer (rules A-0 to A-9, A-12): 0 where the call is accepted, and
// otherwise the number of its refusal.
#![tactic(auto)]

ghost use Rattle.std.specs.Prelude.{◌≡◌};
ghost use Rattle.answers.specs.Refusals.{refusal_number, answer_of};

// Why a call is refused. Its number in the answer table is its discriminant.
#[derive(Clone, Copy, PartialEq, Eq, Debug)]
pub enum Refusal {
    // A-1: no register at the index, or its bank is absent.
    Absent = 1,
    // A-2: a register without a writable bit.
    ReadOnly = 2,
    // A-3: sensor 2 or 3 out of range.
    BadTemperature = 3,
    // A-4: samples are stopped.
    Stopped = 4,
    // A-5: no record.
    BadRecord = 5,
    // A-6: no plan for the speed.
    BadSpeed = 6,
    // A-7: no such fan, sensor, output or voltage, or a resistor out of range.
    NoChannel = 7,
    // A-8: a buffer, slice, image or list of codes of another length.
    WrongLength = 8,
    // A-9: a bus write to the offset of a temperature.
    OffsetLocked = 9,
    // A-12: a whole record after those of a day.
    DayFull = 12,
}

impl Refusal {
    // Its number in the answer table.
    pub fn number(self) -> u8
        ensures { result ≡ refusal_number self }
    {
        self as u8
    }
}

// The number of an answer, whatever an accepted call carries beside it.
pub fn answer_number<T: Copy>(answer: Result<T, Refusal>) -> u8
    ensures { result ≡ answer_of answer }
{
    match answer {
        Ok(_) => 0,
        Err(refusal) => refusal.number(),
    }
}
