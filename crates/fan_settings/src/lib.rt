// Where a fan's limit and divisor are in the registers, and setting them by a plan, in place on the registers' slice.
// Nothing here is of one chip.
#![tactic(auto)]

ghost use Rattle.std.specs.Prelude.{◌≡◌};
ghost use Rattle.answers.specs.Refusals.{answer_of};
ghost use Rattle.bits.specs.Fields.{places_of};
ghost use Rattle.fan.specs.Plan.{plan_answer};
ghost use Rattle.fan_settings.specs.Settings.{fan_at, planned_registers};

use answers::Refusal;
use bits::fields::Field;
use bits::store;
use fan::Plan;

// A limit is written whole.
const WHOLE: u8 = 0xff;

// The plan's limit and divisor bits put, every other bit of every cell kept; no plan is refused, and leaves all.
pub fn put_plan(
    s: &mut [u8],
    limit: usize,
    field: Field,
    planned: Option<Plan>,
) -> Result<(), Refusal>
    ensures registers { s.new
        ≡ planned_registers s.old (fan_at limit (places_of field)) planned }
    ensures answer { answer_of result ≡ plan_answer planned }
{
    let plan = planned.ok_or(Refusal::BadSpeed)?;
    store(s, limit, WHOLE, plan.limit);
    plan.divisor.put(s, field);
    Ok(())
}
