// The 28 lines of the report of a day, put on a page: the figures of each reading, how often each bit of 41h and 42h
// was latched, and the end.
#![tactic(auto)]

ghost use Rattle.std.specs.Prelude.{◌≡◌, ◌+◌, ◌≤◌, ◌<◌};
ghost use Rattle.text.specs.Pages.{Puts};
ghost use Rattle.figures.specs.Figure.{figure_at};
ghost use Rattle.text_hex.specs.Hex.{hex};
ghost use Rattle.w83782d_day.specs.Report.{summary_of};
ghost use Rattle.w83782d_report.specs.Parts.{view_of};
ghost use Rattle.w83782d_report_text.specs.ReportText.{reading_lines, latched_lines, report_text, text_room};

use figures::Figure;
use report_text::{put_counts, put_end, put_figure};
use text::Page;
use text_hex::put_hex;
use w83782d_report::{FIGURES, Report};

// Room for any report: 11 lines of at most 87 characters and two of 89, 14 of 45, and the last of 46.
pub const TEXT_ROOM: usize = 1811;

// The readings that have a register of bank 0, from 20h on: the codes, sensor 1 and the counts.
const IN_BANK_0: usize = 11;

const FIRST_REGISTER: u8 = 0x20;

// Where the figures of sensors 2 and 3 are.
const SENSOR_2: usize = 33;

const SENSOR_3: usize = 36;

// The bits of 42h that an event can latch: 5-0.
const BITS_OF_42: usize = 6;

// The name of a register: its index in capitals.
fn index_name(index: u8) -> [u8; 2]
    ensures { result ≡ hex index }
{
    let mut name = [0u8; 2];
    let mut page = Page {
        out: &mut name,
        at: 0,
    };
    put_hex(&mut page, index);
    name
}

// The figure whose three numbers are at a place of the array: unlike that of `report_text` it tests no place.
fn figure_from(figures: &[i64; FIGURES], place: usize) -> Figure
    requires { place < 37 }
    ensures { result ≡ figure_at figures.now place }
{
    Figure {
        least: figures[place],
        greatest: figures[place + 1],
        sum: figures[place + 2],
    }
}

fn put_registers(page: &mut Page, samples: u64, figures: &[i64; FIGURES])
    ensures lines { Puts page.old (reading_lines 11 samples figures.now) page.new }
    ensures short { page.new.at ≤ page.old.at + 957 }
{
    // The proof has from a read that the place is a usize.
    let _place = page.at;
    for i in 0..IN_BANK_0 {
        let name = index_name(FIRST_REGISTER + i as u8);
        put_figure(page, &name, samples, figure_from(figures, 3 * i));
    }
}

fn put_readings(page: &mut Page, samples: u64, figures: &[i64; FIGURES])
    ensures lines { Puts page.old (reading_lines 13 samples figures.now) page.new }
    ensures short { page.new.at ≤ page.old.at + 1135 }
{
    put_registers(page, samples, figures);
    put_figure(page, b"1.50", samples, figure_from(figures, SENSOR_2));
    put_figure(page, b"2.50", samples, figure_from(figures, SENSOR_3));
}

fn put_latched(page: &mut Page, first: &[u64; 8], second: &[u64; 8])
    ensures lines { Puts page.old (latched_lines first.now second.now) page.new }
    ensures short { page.new.at ≤ page.old.at + 630 }
{
    put_counts(page, b"41", first);
    put_counts(page, b"42", &second[..BITS_OF_42]);
}

// The whole report, as if the log ended here.
pub fn put_report(page: &mut Page, report: &Report)
    ensures text { Puts page.old (report_text (summary_of (view_of report.now))) page.new }
    ensures short { page.new.at ≤ page.old.at + text_room }
{
    let tally = report.tally;
    put_readings(page, tally.samples, &report.figures);
    put_latched(page, &report.first, &report.second);
    put_end(page, report.answer(), tally.accepted);
}
