// Setting a plan, in place on the registers' slice with the latches by value.
#![tactic(auto)]

ghost use Rattle.std.specs.Prelude.{◌≡◌};
ghost use Rattle.answers.specs.Refusals.{answer_of};
ghost use Rattle.w83782d_latches.specs.declared.Latches.{Latches};
ghost use Rattle.w83782d_bus.specs.Bus.{state, written, sized, outcome_in};
ghost use Rattle.w83782d_plan.specs.Plan.{set_plan_of};

use answers::Refusal;
use fan::planner::plan;
use fan_settings::put_plan;
use w83782d_bus::Outcome;
use w83782d_latches::Latches;
use w83782d_map::{CELLS, FAN_LIMITS};
use w83782d_store::divisor_field;

// The plan put in the registers: no latch has a part in it.
fn put_alarm(s: &mut [u8], fan: u8, rpm: u32) -> Result<(), Refusal>
    ensures { (l : Latches) → written (state s.new l) (answer_of result)
        ≡ sized s.old l (set_plan_of (state s.old l) fan rpm) }
{
    if s.len() != CELLS {
        return Err(Refusal::WrongLength);
    }
    if fan < 1 || 3 < fan {
        return Err(Refusal::NoChannel);
    }
    let f = fan as usize;
    put_plan(s, FAN_LIMITS + f, divisor_field(f), plan(rpm))
}

// An alarm for a fan, 1 to 3, at a speed of 1 to 1,350,000 turns a minute. Refused as 7
// or 6 it leaves registers and latches; a slice that is not of 112 cells is refused as 8.
pub fn set_plan_in(s: &mut [u8], l: Latches, fan: u8, rpm: u32) -> Outcome<()>
    ensures { outcome_in s.new result
        ≡ sized s.old l (set_plan_of (state s.old l) fan rpm) }
{
    let answer = put_alarm(s, fan, rpm);
    Outcome { latches: l, answer }
}
