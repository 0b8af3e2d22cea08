// The plan of a fan alarm: the divisor and limit whose alarm comes nearest to the speed
// asked for and misses no slower one.
ghost use Rattle.std.specs.Prelude.{◌≡◌};
ghost use Rattle.fan.specs.Count.{value_of};
ghost use Rattle.fan.specs.Plan.{rings_from, IsPlanned, Plans};
ghost use Rattle.fan.specs.Search.{choice_at, product_of, better, best_to, plan_of};

use crate::{Divisor, PER_MINUTE, Plan, Undivided};

// A divisor with the number of its counts, a limit plus one, that planning weighs.
#[derive(Clone, Copy)]
struct Choice {
    divisor: Divisor,
    counts: u8,
}

impl Choice {
    // The most counts of a divisor that stay within k, the undivided count of the speed asked for.
    fn at(k: u32, divisor: Divisor) -> Self
        ensures { result ≡ choice_at k divisor }
    {
        let counts = Undivided(k).divided_by(divisor);
        Choice {
            divisor,
            counts: counts.0,
        }
    }

    // The undivided count from which it rings.
    fn product(self) -> u32
        ensures { result ≡ product_of self }
    {
        (self.counts as u32) * (self.divisor.value() as u32)
    }

    // The better of it and the choice at one more divisor.
    fn or_at(self, k: u32, divisor: Divisor) -> Self
        ensures { result ≡ better k self divisor }
    {
        let next = Choice::at(k, divisor);
        if self.product() < next.product() {
            return next;
        }
        self
    }
}

// The best choice of the eight divisors, in rising order.
fn best_choice(k: u32) -> Choice
    ensures { result ≡ best_to k 7 }
{
    let first = Choice::at(k, Divisor::By1);
    (1..8u8).fold(first, |best, bits| {
        best.or_at(k, Divisor::from_bits(bits))
    })
}

// The divisor and limit whose alarm comes nearest to w turns a minute and misses no slower speed.
// None for 0 and above 1,350,000.
pub fn plan(w: u32) -> Option<Plan>
    ensures { (result ≡ plan_of w) × IsPlanned w result × Plans }
{
    if w == 0 {
        return None;
    }
    if PER_MINUTE < w {
        return None;
    }
    let best = best_choice(PER_MINUTE / w);
    Some(Plan {
        divisor: best.divisor,
        limit: best.counts - 1,
    })
}

impl Plan {
    // The undivided count from which its divisor and limit ring.
    pub fn rings_from(self) -> Undivided
        ensures { result.0 ≡ rings_from (value_of self.divisor) self.limit }
    {
        Undivided((self.limit as u32 + 1) * (self.divisor.value() as u32))
    }
}
