// Internal: the buyers of repeated pairs, by two scans of a checked book. A caller meets each `requires`.
#![tactic(auto)]

ghost use Rattle.std.specs.Prelude.{◌≡◌, true};
ghost use Rattle.rules.specs.Words.{is_book, entries};
ghost use Rattle.numbers.specs.Sums.{count};
ghost use Rattle.cells.specs.Cells.{blank};
ghost use Rattle.repeated_pairs.specs.Flags.{flagged};
ghost use Rattle.repeated_pairs.specs.Pairs.{is_few, is_other, bit_words, pairs_of, buyers_of, likely_among};

use pairs::PairBits;
use parties::Flags;
use period::Period;
use words::Book;

mod bits;
mod pairs;
pub mod parties;
mod period;

// The words of few bits of pairs, and those of a bit for each pair, 128,000 bytes.
pub const FEW_WORDS: usize = 64;

pub const ALL_WORDS: usize = 16000;

// Marks the pairs with a cancelled entry of another day of the billing period, and counts these entries. The table of months
// is searched once, not for each entry.
fn mark_pairs<const WORDS: usize>(book: &Book, day: u32, pairs: &mut PairBits<WORDS>) -> u32
    requires { pairs.old ≡ blank (bit_words (is_few WORDS)) }
    ensures others { result ≡ count (is_other day) (entries book.now) }
    ensures bits { pairs.new ≡ pairs_of (is_few WORDS) day (entries book.now) }
    ensures book { is_book book.now ≡ true }
{
    let _ = &pairs.words;
    let period = Period::of(day);
    let mut n = 0;
    for i in 0..book.count() {
        n += u32::from(pairs.mark_other(book.entry(i), &period));
    }
    n
}

// Flags the buyers, of those among some, of cancelled entries of the day whose bits are marked.
fn mark_buyers<const WORDS: usize>(
    book: &Book,
    day: u32,
    among: &Flags,
    pairs: &PairBits<WORDS>,
) -> Flags
    ensures { result ≡ buyers_of (is_few WORDS) day among.now pairs.now (entries book.now) }
{
    let _ = &pairs.words;
    let mut buyers = Flags::none();
    for i in 0..book.count() {
        let e = book.entry(i);
        if pairs.is_hit(e, day, among) {
            buyers.put(e.key.counterparty, true);
        }
    }
    buyers
}

// Flags those among some that are buyers of repeated pairs, with cancelled entries of the day and of another day of the
// billing period; by few bits perhaps others too: where nobody is flagged by these, no pair is repeated.
// It stays out of its callers, which would have the words in their frames.
#[inline(never)]
pub fn buyers<const WORDS: usize>(book: &Book, day: u32, among: &Flags) -> Flags
    requires { WORDS ≡ bit_words (is_few WORDS) }
    ensures flags { flagged result ≡ likely_among (is_few WORDS) day (entries book.now) among.now }
    ensures book { is_book book.now ≡ true }
{
    let mut pairs = PairBits::<WORDS> {
        words: [0u64; WORDS],
    };
    if mark_pairs(book, day, &mut pairs) == 0 {
        return Flags::none();
    }
    mark_buyers(book, day, among, &pairs)
}
