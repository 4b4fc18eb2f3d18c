// Internal: a month report into a lent one, so that its 5,392 bytes are copied once and not by each caller.
// A caller meets each `requires`.
ghost use Rattle.std.specs.Prelude.{◌≡◌};
ghost use Rattle.rules.specs.MonthReport.{report_figures, refused_report, month_report};
ghost use Rattle.cells.specs.Cells.{blank};
ghost use Rattle.month_report.specs.Reports.{IsReported};

use crate::days::MonthDays;
use crate::lines;
use rules::{MonthReport, REPORT_FIGURES, Refusal};
use words::Book;

// A report without a figure, to be lent.
pub fn no_report() -> MonthReport
    ensures { result ≡ refused_report 0 }
{
    MonthReport {
        answer: 0,
        month: 0,
        first_day: 0,
        days: 0,
        lines: [0; REPORT_FIGURES],
    }
}

// Why a book's month cannot be reported; else its report. A refused one leaves the report as it was.
fn fill(book: &[u32], month: u32, report: &mut MonthReport) -> Result<(), Refusal>
    requires { report.old ≡ refused_report 0 }
    ensures { IsReported result report.new (month_report book.now month) }
{
    let book = Book::of(book)?;
    let days = MonthDays::of(month)?;
    lines::fill(&book, days, &mut report.lines);
    report.month = month;
    report.first_day = days.first;
    report.days = days.count;
    Ok(())
}

// The lines are zero before, and stay so where the report is refused.
pub fn report_into(book: &[u32], month: u32, report: &mut MonthReport)
    requires { report.old.lines ≡ blank report_figures }
    ensures { report.new ≡ month_report book.now month }
{
    report.answer = 0;
    report.month = 0;
    report.first_day = 0;
    report.days = 0;
    if let Err(refusal) = fill(book, month, report) {
        report.answer = u32::from(refusal);
    }
}
