// Internal: flags of parties by scans of a checked book, for the control of a day. A caller meets each `requires`.
#![tactic(auto)]

ghost use Rattle.std.specs.Prelude.{◌≡◌, true};
ghost use Rattle.repeated_pairs.specs.Flags.{flagged};
ghost use Rattle.detection.specs.Tables.{of_pass};
ghost use Rattle.detection.specs.Passes.{is_second};

use repeated_pairs::parties::Flags;
use repeated_pairs::{ALL_WORDS, FEW_WORDS};
use words::Book;

pub mod sums;

// The passes of a control.
#[derive(Clone, Copy, Debug, PartialEq, Eq)]
pub enum Pass {
    First,
    Second,
}

// The second pass: the buyers of repeated pairs that are detected. The pairs are looked at by few bits first, and by all of
// them only for buyers that are detected: most books have none, and all bits are 128,000 bytes to be cleared.
fn flag_second(book: &Book, day: u32) -> Flags
    ensures { flagged result ≡ of_pass true book.now day }
{
    let likely = repeated_pairs::buyers::<FEW_WORDS>(book, day, &Flags::all());
    if likely.count() == 0 {
        return Flags::none();
    }
    let detected = sums::detect(book, day, &likely);
    if detected.count() == 0 {
        return Flags::none();
    }
    repeated_pairs::buyers::<ALL_WORDS>(book, day, &detected)
}

// Flags the parties of a pass: those detected, in the second pass among the buyers of repeated pairs.
pub fn flag_parties(book: &Book, day: u32, pass: Pass) -> Flags
    ensures { flagged result ≡ of_pass (is_second pass) book.now day }
{
    match pass {
        Pass::First => sums::detect(book, day, &Flags::all()),
        Pass::Second => flag_second(book, day),
    }
}
