// Quotients rounded to the nearest whole number, halves up: speeds and millivolts share them.
ghost use Rattle.std.specs.Prelude.{◌≡◌};
ghost use Rattle.numbers.specs.Rounding.{nearest, Nearest};

// n / d, nearest, halves up; 0 where d is 0. The work is done at twice the width, so nothing overflows.
pub fn rounded(n: u32, d: u32) -> u32
    ensures { (result ≡ nearest n d) × Nearest }
{
    if d == 0 {
        return 0;
    }
    let doubled = 2 * (n as u64) + (d as u64);
    (doubled / (2 * (d as u64))) as u32
}
