// The month report: all parties' sums of each day of a month and type, and the month's totals (02, T-01).
#![tactic(auto)]

ghost use Rattle.std.specs.Prelude.{◌≡◌};
ghost use Rattle.rules.specs.MonthReport.{month_report};

use rules::MonthReport;

mod days;
pub mod lent;
mod lines;

// Causes: 1, then 12 for a month above 1,199. One check of the book, then one pass over its entries.
pub fn month_report(book: &[u32], month: u32) -> MonthReport
    ensures { result ≡ month_report book.now month }
{
    let mut report = lent::no_report();
    lent::report_into(book, month, &mut report);
    report
}
