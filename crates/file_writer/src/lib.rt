// The writer's side of a day file: a block's head and a line as words, and a word as bytes.
#![tactic(auto)]

ghost use Rattle.std.specs.Prelude.{◌≡◌, length};
ghost use Rattle.rules.specs.Refusals.{answer_of};
ghost use Rattle.file_writer.specs.Write.{head_words, line_words, put_cause, put_words};

use rules::Refusal;
use rules::layout::{
    AMOUNTS, COUNTERPARTIES, DAY_WORD, FIGURES_WORD, HIGH_WORD, KIND, LINES, LOW_AMOUNT, LOW_WORD,
    PARTIES, PARTY_WORD, TYPES,
};

// The words of a block's head.
#[derive(Clone, Copy, Debug, PartialEq, Eq)]
pub struct HeadWords {
    pub first: u32,
    pub second: u32,
}

// The words of a line.
#[derive(Clone, Copy, Debug, PartialEq, Eq)]
pub struct LineWords {
    pub figures: u32,
    pub low: u32,
    pub high: u32,
}

// Refused where a figure does not fit its bits.
pub fn head_words(party: u32, day: u32, lines: u32) -> Result<HeadWords, Refusal>
    ensures { result ≡ head_words party day lines }
{
    let fits = (party < PARTIES) & (day < KIND) & (lines < LINES);
    if !fits {
        return Err(Refusal::BadFigure);
    }
    Ok(HeadWords {
        first: PARTY_WORD + (party + lines * PARTIES),
        second: DAY_WORD + day,
    })
}

// Likewise.
pub fn line_words(entry_type: u32, counterparty: u32, amount: u64) -> Result<LineWords, Refusal>
    ensures { result ≡ line_words entry_type counterparty amount }
{
    let fits = (entry_type < TYPES) & (counterparty < COUNTERPARTIES) & (amount < AMOUNTS);
    if !fits {
        return Err(Refusal::BadFigure);
    }
    Ok(LineWords {
        figures: FIGURES_WORD + (entry_type + counterparty * TYPES),
        low: LOW_WORD + (amount % LOW_AMOUNT) as u32,
        high: HIGH_WORD + (amount / LOW_AMOUNT) as u32,
    })
}

// Writes a word's four bytes at a place, lowest first; refused where they are not within the slice.
pub fn put_word(file: &mut [u8], at: usize, word: u32) -> Result<(), Refusal>
    ensures answer { answer_of result ≡ put_cause (length file.old) at }
    ensures words { file.new ≡ put_words file.old at word }
{
    if file.len() < 4 || file.len() - 4 < at {
        return Err(Refusal::BadLength);
    }
    word_bytes::put_word(file, at, word);
    Ok(())
}
