// The raw values of a sample, as a report sums them: codes, whole and half degrees, undivided counts.
#![tactic(auto)]

ghost use Rattle.std.specs.Prelude.{◌≡◌};
ghost use Rattle.w83782d_day.specs.Day.{raw_values};

use w83782d_layout::samples::Sample;

// Seven codes, sensor 1, three counts, sensors 2 and 3.
pub const READINGS: usize = 13;

// All of them, in the order of the report.
pub fn raw_values(x: Sample) -> [i64; READINGS]
    ensures { result ≡ raw_values x }
{
    [
        i64::from(x.codes[0]),
        i64::from(x.codes[1]),
        i64::from(x.codes[2]),
        i64::from(x.codes[3]),
        i64::from(x.codes[4]),
        i64::from(x.codes[5]),
        i64::from(x.codes[6]),
        i64::from(x.sensor1),
        i64::from(x.counts[0].0),
        i64::from(x.counts[1].0),
        i64::from(x.counts[2].0),
        i64::from(x.remote[0]),
        i64::from(x.remote[1]),
    ]
}
