// What a sample does, in place on the registers' slice with the latches by value:
// readings stored, real-time bits set, status latched, marks and OVT stepped.
#![tactic(auto)]

ghost use Rattle.std.specs.Prelude.{◌≡◌, false, [], ◌∷◌};
ghost use Rattle.bits.specs.Bits.{word};
ghost use Rattle.w83782d_bus.specs.Bus.{state, sized, outcome_in};
ghost use Rattle.w83782d_sample.specs.Sample.{sample_of};
ghost use Rattle.w83782d_sample.specs.SampleParts.{remote_step, Evaluates, with_status};
ghost use Rattle.w83782d_sample.specs.SampleParts.{refused_of, bits_of, latched_in};

use answers::Refusal;
use bits::pack;
use sensor::{Remote, output_step, status_step};
use status::{StatusBits, crossed};
use w83782d_bus::Outcome;
use w83782d_conditions::{Comparison, RemoteComparison, compare};
use w83782d_latches::Latches;
use w83782d_layout::samples::Sample;
use w83782d_map::{
    CELLS, INTERRUPT_STATUS_1, INTERRUPT_STATUS_2, REAL_TIME_STATUS_1, REAL_TIME_STATUS_2,
};
use w83782d_store::{answer_to, store};

// ---- Steps

// Sensor 2 or 3 after a sample, and whether its status is latched.
#[derive(Clone, Copy)]
struct Step {
    remote: Remote,
    latched: bool,
}

#[tactic(auto, unfolding(crate::specs::SampleParts::remote_step))]
fn remote_step(found: RemoteComparison, remote: Remote) -> Step
    ensures { result ≡ remote_step found remote }
{
    let Comparison { mode, above, below } = found.status;
    let stepped = status_step(mode, remote.status, above, below);
    let after = Remote {
        status: stepped.mark,
        output: output_step(found.output, remote.output, above, below),
    };
    Step {
        remote: after,
        latched: stepped.latched,
    }
}

// ---- The sensors' bits of 41h and 59h, and of 42h and 5Ah

// Sensors 1 and 2 are bits 4 and 5 of the first byte, sensor 3 is bit 5 of the second.
fn sensors(four: bool, five: bool) -> u8
    ensures { result ≡ word (false ∷ false ∷ false ∷ false ∷ four ∷ five ∷ false ∷ false ∷ []) }
{
    pack(false, false, false, false, four, five, false, false)
}

// ---- Real-time bits, status, marks and OVT, from the readings stored and the real-time bits before

// Fans latch on crossings: fans 1 and 2 are bits 6 and 7 of the first byte, fan 3 is bit 3 of the second.
const FANS_1: u8 = 0b1100_0000;

const FANS_2: u8 = 0b0000_1000;

// The real-time bits, the bits that a sample latches, and the latches after it.
#[derive(Clone, Copy)]
struct Evaluation {
    real: StatusBits,
    latched: StatusBits,
    latches: Latches,
}

fn evaluate(s: &[u8; CELLS], l: Latches) -> Evaluation
    ensures { Evaluates s.now l result }
{
    let found = compare(s);
    let one = status_step(
        found.sensor1.mode,
        l.sensor1,
        found.sensor1.above,
        found.sensor1.below,
    );
    let two = remote_step(found.remote[0], l.remote[0]);
    let three = remote_step(found.remote[1], l.remote[1]);
    let real = StatusBits {
        first: found.first | sensors(found.sensor1.above, found.remote[0].status.above),
        second: found.second | sensors(false, found.remote[1].status.above),
    };
    let latched = StatusBits {
        first: crossed(s[REAL_TIME_STATUS_1], FANS_1, found.first)
            | sensors(one.latched, two.latched),
        second: crossed(s[REAL_TIME_STATUS_2], FANS_2, found.second)
            | sensors(false, three.latched),
    };
    let latches = Latches {
        sensor1: one.mark,
        remote: [two.remote, three.remote],
        ..l
    };
    Evaluation {
        real,
        latched,
        latches,
    }
}

#[tactic(auto, unfolding(crate::specs::SampleParts::with_status))]
fn set_status(s: &mut [u8; CELLS], real: StatusBits, latched: StatusBits)
    ensures { s.new ≡ with_status s.old real latched }
{
    s[INTERRUPT_STATUS_1] |= latched.first;
    s[INTERRUPT_STATUS_2] |= latched.second;
    s[REAL_TIME_STATUS_1] = real.first;
    s[REAL_TIME_STATUS_2] = real.second;
}

// ---- The sample

// A sample in place, which answers the bits of 41h and 42h that it latched. Refused as 3 or 4 it
// leaves registers and latches; a slice that is not of 112 cells is refused as 8.
pub fn sample_in(s: &mut [u8], l: Latches, x: Sample) -> Outcome<StatusBits>
    ensures outcome { outcome_in s.new result ≡ sized s.old l (sample_of (state s.old l) x) }
    ensures latched { bits_of result.answer ≡ latched_in s.old l x }
{
    let Some(cells) = s.as_mut_array::<CELLS>() else {
        return refused(l, Refusal::WrongLength);
    };
    if let Err(refusal) = answer_to(cells, x) {
        return refused(l, refusal);
    }
    store(cells, x);
    let after = evaluate(cells, l);
    set_status(cells, after.real, after.latched);
    Outcome {
        latches: after.latches,
        answer: Ok(after.latched),
    }
}

fn refused(latches: Latches, refusal: Refusal) -> Outcome<StatusBits>
    ensures { result ≡ refused_of latches refusal }
{
    Outcome {
        latches,
        answer: Err(refusal),
    }
}
