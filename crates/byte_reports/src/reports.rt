// The month report on a book in lent bytes (02, T-01). It is lent, so that it is copied once.
ghost use Rattle.std.specs.Prelude.{◌≡◌};
ghost use Rattle.rules.specs.Refusals.{not_a_book};
ghost use Rattle.rules.specs.MonthReport.{month_report, refused_report};
ghost use Rattle.word_bytes.specs.Bytes.{on_words};

use month_report::lent;
use rules::MonthReport;

pub fn report(book: &[u8], month: u32) -> MonthReport
    ensures { result ≡ on_words book.now (λ ws. month_report ws month) (refused_report not_a_book) }
{
    let mut report = lent::no_report();
    byte_calls::ask_with(book, &mut report, |words, report| {
        lent::report_into(words, month, report)
    });
    report
}
