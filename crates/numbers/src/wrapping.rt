// Sums in 64 bits that wrap, as a running sum does which nothing may stop.
ghost use Rattle.std.specs.Prelude.{◌≡◌, ◌+ℤ◌};
ghost use Rattle.numbers.specs.Wrapping.{wrapped};

// The sum, as far as 64 bits hold it.
pub fn wrapping_add(a: i64, b: i64) -> i64
    ensures { result ≡ wrapped (a +ℤ b) }
{
    a.wrapping_add(b)
}
