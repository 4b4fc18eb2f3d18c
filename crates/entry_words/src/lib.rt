// Internal: the five words of one entry, read and checked, for the crates above it.
#![tactic(auto, unfolding(rules::specs::Words::decode))]

ghost use Rattle.std.specs.Prelude.{◌≡◌};
ghost use Rattle.rules.specs.Entry.{key, entry_of, amount_limit};
ghost use Rattle.rules.specs.Words.{entry_ok};
ghost use Rattle.rules.specs.Book.{is_mark_of};
ghost use Rattle.entry_words.specs.Words.{words_in, entry_in};
ghost use Rattle.entry_words.specs.Parts.{who_limit, amount_words, amount_words_ok, mark_words_ok};

use rules::bounds::{LAST_DAY, LAST_PARTY, MOST_MONEY, MOST_VOLUME};
use rules::layout::{
    BILATERAL, CANCELLED_WORD, COUNTERPARTIES, DAY_WORD, FIGURES_WORD, HIGH_WORD, KIND, LOW_AMOUNT,
    LOW_WORD, MARK, PARTY_WORD, STATUS, TYPES, UPDATED_PROGRAM, WORD_VALUES,
};
use rules::{Entry, Key};

// The two words of the largest amounts, each pair as one number.
const MOST_VOLUME_WORDS: u64 = LOW_WORD as u64
    + MOST_VOLUME % LOW_AMOUNT
    + (HIGH_WORD as u64 + MOST_VOLUME / LOW_AMOUNT) * WORD_VALUES;

const MOST_MONEY_WORDS: u64 = LOW_WORD as u64
    + MOST_MONEY % LOW_AMOUNT
    + (HIGH_WORD as u64 + MOST_MONEY / LOW_AMOUNT) * WORD_VALUES;

// The words of an entry, as they lie in a book.
#[derive(Clone, Copy, Debug, PartialEq, Eq)]
pub struct EntryWords {
    pub party: u32,
    pub day: u32,
    pub figures: u32,
    pub low: u32,
    pub high: u32,
}

// The largest type and counterparty as one number, the low 24 bits of a kind 3 word: a counterparty only in type 6.
fn who_limit(entry_type: u32) -> u32
    ensures { result ≡ who_limit entry_type }
{
    if entry_type == BILATERAL {
        BILATERAL + LAST_PARTY * TYPES
    } else {
        UPDATED_PROGRAM
    }
}

// The two words of the largest amount of a type as one number. A counterparty makes no type one of money.
fn amount_words_limit(who: u32) -> u64
    ensures { result ≡ amount_words (amount_limit who) }
{
    if entry_checks::is_money(who) {
        MOST_MONEY_WORDS
    } else {
        MOST_VOLUME_WORDS
    }
}

impl EntryWords {
    pub fn party(self) -> u32
        ensures { result ≡ (key (entry_in self)).party }
    {
        self.party % KIND
    }

    pub fn day(self) -> u32
        ensures { result ≡ (key (entry_in self)).day }
    {
        self.day % KIND
    }

    pub fn entry_type(self) -> u32
        ensures { result ≡ (key (entry_in self)).type }
    {
        self.figures % KIND % TYPES
    }

    pub fn counterparty(self) -> u32
        ensures { result ≡ (key (entry_in self)).counterparty }
    {
        self.figures % KIND / TYPES % COUNTERPARTIES
    }

    pub fn status(self) -> u32
        ensures { result ≡ (entry_in self).label.status }
    {
        self.figures % KIND / STATUS
    }

    pub fn amount(self) -> u64
        ensures { result ≡ (entry_in self).amount }
    {
        u64::from(self.low % KIND) + u64::from(self.high % KIND) * LOW_AMOUNT
    }

    // The entry that the words hold.
    pub fn entry(self) -> Entry
        ensures { result ≡ entry_of (entry_in self) }
    {
        Entry {
            key: Key {
                party: self.party(),
                day: self.day(),
                entry_type: self.entry_type(),
                counterparty: self.counterparty(),
            },
            status: self.status(),
            amount: self.amount(),
        }
    }

    // A mark of a day (01, 'Control of a day'). Both figures are compared as one: a branch on the day would be mispredicted.
    pub fn is_mark_of(self, day: u32) -> bool
        ensures { result ≡ is_mark_of day (entry_in self) }
    {
        let types = u64::from(TYPES);
        let dated = u64::from(self.day()) * types + u64::from(self.entry_type());
        dated == u64::from(day) * types + u64::from(MARK)
    }

    // The two words of the amount: in order as one number, where their kinds are right.
    fn is_amount_ok(self, who: u32) -> bool
        ensures { result ≡ amount_words_ok who self.low self.high }
    {
        (LOW_WORD <= self.low)
            & (self.low < HIGH_WORD)
            & (HIGH_WORD <= self.high)
            & (u64::from(self.low) + u64::from(self.high) * WORD_VALUES <= amount_words_limit(who))
    }

    // A mark: all of its words but the day's are known.
    fn is_mark_ok(self) -> bool
        ensures { result ≡ mark_words_ok self.party self.day self.figures self.low self.high }
    {
        (self.party == PARTY_WORD)
            & ((DAY_WORD <= self.day) & (self.day <= DAY_WORD + LAST_DAY))
            & (self.figures == FIGURES_WORD + MARK)
            & (self.low == LOW_WORD)
            & (self.high == HIGH_WORD)
    }

    // Whole words compared. What depends on the type is a limit that is chosen, so that legal entries but marks take one way
    // whatever their types and statuses: a branch on these is mispredicted.
    pub fn is_ok(self) -> bool
        ensures { result ≡ entry_ok (words_in self) }
    {
        let EntryWords {
            party,
            day,
            figures,
            ..
        } = self;
        // party and day in range, no status past cancelled, and none cancelled without a counterparty
        if !(((PARTY_WORD < party) & (party <= PARTY_WORD + LAST_PARTY))
            & ((DAY_WORD <= day) & (day <= DAY_WORD + LAST_DAY))
            & ((FIGURES_WORD <= figures) & (figures < CANCELLED_WORD + STATUS))
            & !((CANCELLED_WORD < figures) & (figures < CANCELLED_WORD + TYPES)))
        {
            return self.is_mark_ok();
        }
        let who = figures % STATUS;
        (1 <= who)
            & (who <= who_limit(figures % TYPES))
            & !(who == MARK)
            & !(who == BILATERAL + party % COUNTERPARTIES * TYPES)
            & self.is_amount_ok(who)
    }
}
