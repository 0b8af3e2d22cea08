// The report of a whole log in one call from C. host/bench makes it, to measure the report without the
// reading and printing of the program; no header declares it.
#![tactic(auto)]

ghost use Rattle.std.specs.Prelude.{◌≤◌};
ghost use Rattle.text.specs.Text.{Put};
ghost use Rattle.w83782d_bus.specs.Bus.{power_on};
ghost use Rattle.w83782d_day.specs.Report.{report_of};
ghost use Rattle.w83782d_report_text.specs.ReportText.{report_text, text_room};

use text::Page;
use w83782d_report::Report;
use w83782d_report_text::put_report;

// The lines of the report, from the start of the text, as far as it goes; how many characters they are.
#[unsafe(no_mangle)]
pub extern "C" fn w83782d_report(log: &[u8], text: &mut [u8]) -> usize
    ensures text { Put text.old 0 (report_text (report_of power_on log.now))
        text.new result }
    ensures short { result ≤ text_room }
{
    // In place from the first: `start` and `feed` hand on a whole report, which is copied by memcpy. A blank one is made
    // where it is kept.
    let mut report = Report::blank();
    report.restart();
    report.feed_in(log);
    let mut page = Page { out: text, at: 0 };
    put_report(&mut page, &report);
    page.at
}
