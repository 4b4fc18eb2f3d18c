// Internal: the scan of a checked book for the tally and B, for the crates above it. A caller meets each `requires`.
#![tactic(auto)]

ghost use Rattle.std.specs.Prelude.{◌≡◌, ◌≤◌, true};
ghost use Rattle.tally.specs.Scan.{scanned, none_for};
ghost use Rattle.rules.specs.Entry.{last_party, last_day, is_volume};
ghost use Rattle.rules.specs.Words.{entries, coefficient_of, tolerance_of};
ghost use Rattle.rules.specs.Balance.{sum_place};

use balance_formulas::{Figures, Tolerances};
use rules::layout::{
    BILATERAL, DAY_WORD, FIGURES_WORD, PARTY_WORD, TYPES, UPDATED_PROGRAM, WITHDRAWN_WORD,
};
use rules::{PartyDay, SUMS, Tally, TallyAnswer};
use words::Book;

// The kind 3 word of a standing type 6 entry with counterparty 0: an export. Each counterparty adds TYPES.
const EXPORT: u32 = FIGURES_WORD + BILATERAL;

// Where the sum of a volume type stands in the tally: that of type 22 last.
pub fn sum_place(entry_type: u32) -> usize
    requires { is_volume entry_type ≡ true }
    ensures { result ≡ sum_place entry_type }
{
    if entry_type == UPDATED_PROGRAM {
        SUMS - 1
    } else {
        (entry_type - 1) as usize
    }
}

// The tally and B of a party's day, with the book's R and TM, by one pass over its entries. Whole words are compared: a word
// of a book has its kind and no unnamed bit. Inlined, so that the sums are not copied to its caller.
#[inline(always)]
pub fn scan(book: &Book<'_>, party: u32, day: u32) -> Figures
    requires party_in_range { party ≤ last_party }
    requires day_in_range { day ≤ last_day }
    ensures day { result.day ≡ scanned party day (entries book.now) }
    ensures coefficient { result.tolerances.coefficient ≡ coefficient_of book.now }
    ensures tolerance { result.tolerances.tolerance ≡ tolerance_of book.now }
{
    let own = PARTY_WORD + party;
    let dated = DAY_WORD + day;
    let sold = EXPORT + TYPES * party;
    let mut tally = Tally {
        party,
        sums: [0; SUMS],
    };
    let mut bought = 0u64;
    for i in 0..book.count() {
        let e = book.entry_words(i);
        let today = e.day == dated;
        if today & (e.party == own) {
            if (e.figures < WITHDRAWN_WORD)
                & entry_checks::is_volume(e.figures % TYPES)
                & !(e.figures == EXPORT)
            {
                let place = sum_place(e.figures % TYPES);
                tally.sums[place] += e.amount();
            }
        }
        if today & (e.figures == sold) {
            bought += e.amount();
        }
    }
    let tolerances = Tolerances {
        coefficient: book.coefficient(),
        tolerance: book.tolerance(),
    };
    Figures {
        day: PartyDay { tally, bought },
        tolerances,
    }
}

// The tally of a refusal, by any cause: each figure is zero.
pub fn no_tally(cause: u32) -> TallyAnswer
    ensures { result ≡ none_for cause }
{
    TallyAnswer {
        answer: cause,
        tally: Tally {
            party: 0,
            sums: [0; SUMS],
        },
        bought: 0,
    }
}
