// Internal: whether a pass of a control has nobody, by scans of a checked book. A caller meets each `requires`.
#![tactic(auto)]

ghost use Rattle.std.specs.Prelude.{◌≡◌, true, false, All};
ghost use Rattle.rules.specs.Entry.{record_in, entry_of};
ghost use Rattle.rules.specs.Words.{entries};
ghost use Rattle.detection.specs.Tables.{of_pass};
ghost use Rattle.detection.specs.Passes.{is_second};
ghost use Rattle.empty_passes.specs.Sought.{nobody, is_cancelled_on, is_sale_on};

use detection::{Pass, sums};
use rules::Entry;
use rules::layout::{BILATERAL, CANCELLED, STANDING};
use words::Book;

// A cancelled entry of the day.
fn is_cancelled_on(e: Entry, day: u32) -> bool
    ensures { result ≡ is_cancelled_on day (record_in e) }
{
    (e.status == CANCELLED) & (e.key.day == day)
}

// A standing sale of the day in the day-ahead balance (Article 7).
fn is_sale_on(e: Entry, day: u32) -> bool
    ensures { result ≡ is_sale_on day (record_in e) }
{
    (e.status == STANDING)
        & (e.key.day == day)
        & sums::is_sale(e.key.entry_type)
        & !((e.key.entry_type == BILATERAL) & (e.key.counterparty == 0))
}

// Whether the book has an entry of which a test holds: false only where it has none.
fn has_entry<F: Fn(Entry) -> bool>(book: &Book, is_sought: F) -> bool
    requires { F.IsAlwaysCallable is_sought }
    ensures { result ≡ false → All (λ r. F.post is_sought (entry_of r) false) (entries book.now) }
{
    for i in 0..book.count() {
        if is_sought(book.entry(i)) {
            return true;
        }
    }
    false
}

// Whether a pass has no party: true only where it has none.
// Without a sale of the day nobody is detected, and without a cancelled entry of the day no pair is repeated.
pub fn has_nobody(book: &Book, day: u32, pass: Pass) -> bool
    ensures { result ≡ true → of_pass (is_second pass) book.now day ≡ nobody }
{
    if !has_entry(book, |e| is_sale_on(e, day)) {
        return true;
    }
    match pass {
        Pass::First => false,
        Pass::Second => !has_entry(book, |e| is_cancelled_on(e, day)),
    }
}
