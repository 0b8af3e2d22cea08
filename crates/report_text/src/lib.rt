// The lines of a report of figures, put on a page: a line of each reading ("20 3 -1 7 12"), a line of each bit of a
// register ("41.0 17"), and the last line ("end 12 100000"). Nothing here is of one chip.
//
// Each promises besides how far it goes at most (`short`), for a caller who needs room for all of it: a number of 64
// bits has at most 20 characters, with its sign.
#![tactic(auto)]

ghost use Rattle.std.specs.Prelude.{◌≡◌, ◌+◌, ◌*◌, ◌≤◌, pos, length, get_or};
ghost use Rattle.figures.specs.Figure.{figure_at};
ghost use Rattle.text.specs.Pages.{Puts};
ghost use Rattle.report_text.specs.Lines.{spaced_signed, extreme, reading_line};
ghost use Rattle.report_text.specs.Lines.{count_line, count_lines, end_line};

use figures::Figure;
use text::Page;

// A signed number behind a space.
fn put_signed_number(page: &mut Page, z: i64)
    ensures { Puts page.old (spaced_signed z) page.new }
{
    page.put_byte(b' ');
    page.put_signed(z);
}

// The least or the greatest behind a space: "-" where there were no samples.
fn put_extreme(page: &mut Page, samples: u64, z: i64)
    ensures { Puts page.old (extreme samples z) page.new }
{
    match samples {
        0 => page.put_bytes(b" -"),
        _ => put_signed_number(page, z),
    }
}

// The line of a reading: name, samples, least, greatest, sum; without samples the least and the greatest are "-".
// Beside its name: four numbers, each after a space, and the line's end.
pub fn put_figure(page: &mut Page, name: &[u8], samples: u64, figure: Figure)
    ensures line { Puts page.old (reading_line name.now samples figure) page.new }
    ensures short { page.new.at ≤ page.old.at + (length name.now + 85) }
{
    page.put_bytes(name);
    page.put_spaced(samples);
    put_extreme(page, samples, figure.least);
    put_extreme(page, samples, figure.greatest);
    put_signed_number(page, figure.sum);
    page.put_byte(b'\n');
}

// The number that is so many places behind a place, or 0 where the slice has none. The sum of both may be more than a
// usize holds.
fn number_at(numbers: &[i64], place: usize, more: usize) -> i64
    ensures { result ≡ get_or numbers.now (place + more) (pos 0) }
{
    match place.checked_add(more) {
        Some(there) if there < numbers.len() => numbers[there],
        _ => 0,
    }
}

// The figure whose three numbers are in a slice from a place on. They are 0 beyond it.
pub fn figure_from(figures: &[i64], place: usize) -> Figure
    ensures { result ≡ figure_at figures.now place }
{
    Figure {
        least: number_at(figures, place, 0),
        greatest: number_at(figures, place, 1),
        sum: number_at(figures, place, 2),
    }
}

// The same line of the figure in a slice from a place on.
pub fn put_reading(page: &mut Page, name: &[u8], samples: u64, figures: &[i64], place: usize)
    ensures line { Puts page.old (reading_line name.now samples (figure_at figures.now place)) page.new }
    ensures short { page.new.at ≤ page.old.at + (length name.now + 85) }
{
    put_figure(page, name, samples, figure_from(figures, place));
}

// The line of one bit of a register: both, and the count. Beside the register: a point, two numbers, the second after a
// space, and the line's end.
fn put_count(page: &mut Page, register: &[u8], bit: u64, n: u64)
    ensures line { Puts page.old (count_line register.now bit n) page.new }
    ensures short { page.new.at ≤ page.old.at + (length register.now + 43) }
{
    page.put_bytes(register);
    page.put_byte(b'.');
    page.put_decimal(bit);
    page.put_spaced(n);
    page.put_byte(b'\n');
}

// A line for each count of a register's bits; the first is that of bit 0.
pub fn put_counts(page: &mut Page, register: &[u8], counts: &[u64])
    ensures lines { Puts page.old (count_lines register.now counts.now) page.new }
    ensures short { page.new.at ≤ page.old.at + length counts.now * (length register.now + 43) }
{
    // Where there is no count the place stays: the proof has from a read that it is a usize.
    let _place = page.at;
    for bit in 0..counts.len() {
        put_count(page, register, bit as u64, counts[bit]);
    }
}

// The last line: the answer, and how many records were accepted. Besides "end": two numbers, each after a space, and
// the line's end.
pub fn put_end(page: &mut Page, answer: u8, accepted: u64)
    ensures line { Puts page.old (end_line answer accepted) page.new }
    ensures short { page.new.at ≤ page.old.at + 46 }
{
    page.put_bytes(b"end");
    page.put_spaced(u64::from(answer));
    page.put_spaced(accepted);
    page.put_byte(b'\n');
}
