// Internal: a bit for each of some pairs. A caller meets each `requires`.
ghost use Rattle.std.specs.Prelude.{◌≡◌, true, ℕ, List};
ghost use Rattle.rules.specs.Entry.{legal, record_in};
ghost use Rattle.repeated_pairs.specs.Pairs.{Paired, is_few, bit_of, bit_words, is_other, pair_marked, is_hit};

use crate::bits;
use crate::parties::Flags;
use crate::period::Period;
use rules::Entry;
use rules::layout::CANCELLED;
use std::marker::Model;

// Few words of bits, of which pairs share one, or a bit for each pair. Clauses see the list of the words.
#[derive(Drop)]
pub struct PairBits<const WORDS: usize> {
    pub words: [u64; WORDS],
}

impl<const WORDS: usize> Model for PairBits<WORDS> {
    ghost Value = { List ℕ };

    ghost view = { λ b. b.words };

    ghost invariant = { λ b. WORDS ≡ bit_words (is_few WORDS) };
}

// The bit of an entry's pair: 1,024 a seller, one a buyer.
fn bit_of<const WORDS: usize>(e: Entry) -> usize
    requires words { WORDS ≡ bit_words (is_few WORDS) }
    requires pair { Paired (record_in e) }
    ensures { result ≡ bit_of (is_few WORDS) (record_in e) }
{
    let pair = (1024 * e.key.party + e.key.counterparty) as usize;
    pair % (64 * WORDS)
}

impl<const WORDS: usize> PairBits<WORDS> {
    // Marks the pair of a cancelled entry of another day of the period: whether it is one.
    pub fn mark_other(&mut self, e: Entry, period: &Period) -> bool
        requires { legal (record_in e) ≡ true }
        ensures other { result ≡ is_other period.now.day (record_in e) }
        ensures bits { self.new ≡ pair_marked (is_few WORDS) period.now.day (record_in e) self.old }
    {
        let other = period.is_other(e);
        if other {
            let bit = bit_of::<WORDS>(e);
            bits::set_bit(&mut self.words, bit);
        }
        other
    }

    // A cancelled entry of the day, of a buyer among some, whose bit is marked.
    pub fn is_hit(&self, e: Entry, day: u32, among: &Flags) -> bool
        requires { legal (record_in e) ≡ true }
        ensures { result ≡ is_hit (is_few WORDS) day among.now self.now (record_in e) }
    {
        if !((e.status == CANCELLED) & (e.key.day == day)) {
            return false;
        }
        let words = &self.words;
        let bit = bit_of::<WORDS>(e);
        among.has(e.key.counterparty) & bits::bit_at(words, bit)
    }
}
