// Figures and counters kept in slices, a sample or a byte more at a time (crate `figures` says what they are). Nothing
// here is of one chip.
#![tactic(auto)]

ghost use Rattle.std.specs.Prelude.{◌≡◌, ◌+◌, ◌*◌, ◌<◌, ◌≤◌, length, slice_set};
ghost use Rattle.bits.specs.Bits.{choose};
ghost use Rattle.figures.specs.Figure.{RunningFigures};
ghost use Rattle.figures.specs.Rows.{figures_after, RowFigures};
ghost use Rattle.figures.specs.BitCounts.{bit_counts_after, BitCounts};
ghost use Rattle.figures_kept.specs.Kept.{bounds_in, figure_in};

use numbers::wrapping::wrapping_add;

// A value in its place where it is beyond the number there. Most values are not, and then nothing is stored.
fn put_beyond(figures: &mut [i64], at: usize, value: i64, beyond: bool)
    requires { at < length figures.old }
    ensures { figures.new
        ≡ choose beyond (slice_set figures.old at value) figures.old }
{
    if beyond {
        figures[at] = value;
    }
}

// The least and the greatest of a figure that is kept from a place on.
fn bounds_in(figures: &mut [i64], at: usize, samples: u64, value: i64)
    requires { at + 3 ≤ length figures.old }
    ensures { figures.new ≡ bounds_in figures.old at samples value }
{
    if samples > 0 {
        let below = value < figures[at];
        put_beyond(figures, at, value, below);
        let above = figures[at + 1] < value;
        put_beyond(figures, at + 1, value, above);
        return;
    }
    figures[at] = value;
    figures[at + 1] = value;
}

// All three numbers of one. Where it is called for a row, the compiler tests the samples once before the loop.
fn value_in(figures: &mut [i64], at: usize, samples: u64, value: i64)
    requires { at + 3 ≤ length figures.old }
    ensures { figures.new ≡ figure_in figures.old at samples value }
{
    bounds_in(figures, at, samples, value);
    figures[at + 2] = wrapping_add(figures[at + 2], value);
}

// A row with a figure for each value: no place is tested.
fn row_in(figures: &mut [i64], samples: u64, values: &[i64])
    requires { 3 * length values.now ≤ length figures.old }
    ensures { figures.new ≡ figures_after samples figures.old values.now }
{
    for i in 0..values.len() {
        value_in(figures, 3 * i, samples, values[i]);
    }
}

// One value more of each reading, by how many samples there were before. The figures follow one another
// in a slice, three numbers each: least, greatest, sum. Where values or figures run out, the rest stays.
pub fn figures_in(figures: &mut [i64], samples: u64, values: &[i64])
    ensures row { figures.new ≡ figures_after samples figures.old values.now }
    ensures claims { RunningFigures × RowFigures }
{
    let kept = figures.len() / 3;
    if kept < values.len() {
        row_in(figures, samples, &values[..kept]);
        return;
    }
    row_in(figures, samples, values);
}

// One more in the counter of each bit that a byte has; the first counter is that of bit 0. It stops where no bit is
// left, since most bytes have none.
pub fn count_bits(counts: &mut [u64], byte: u8)
    ensures { (counts.new ≡ bit_counts_after counts.old byte) × BitCounts }
{
    let mut rest = byte;
    for count in counts.iter_mut() {
        if rest == 0 {
            return;
        }
        *count = count.wrapping_add((rest % 2) as u64);
        rest /= 2;
    }
}
