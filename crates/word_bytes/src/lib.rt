// Internal: words out of bytes, little-endian, and back, for the C calls and the day file. A caller meets each `requires`.
#![tactic(auto)]

ghost use Rattle.std.specs.Prelude.{◌≡◌, ◌+◌, ◌*◌, ◌<◌, ◌≤◌, min, [], ◌∷◌, ◌++◌, length, take, drop};
ghost use Rattle.rules.specs.Words.{values, count_of, book_words, used_with};
ghost use Rattle.numbers.specs.Causes.{if_done};
ghost use Rattle.rules.specs.Refusals.{answer_of};
ghost use Rattle.rules.specs.DayFile.{words_of};
ghost use Rattle.word_bytes.specs.Bytes.{bytes_of, is_whole};
ghost use Rattle.word_bytes.specs.Coding.{word_at, over_bytes, count_in, needed_for, Decoded};

use rules::Refusal;
use rules::bounds::MOST_ENTRIES;
use rules::layout::{BOOK_WORDS, ENTRY_WORDS, HEAD_WORDS, KIND};

// The word at a byte.
pub fn word_at(bytes: &[u8], at: usize) -> u32
    requires { at + 4 ≤ length bytes.now }
    ensures { result ≡ word_at bytes.now at }
{
    u32::from_le_bytes([bytes[at], bytes[at + 1], bytes[at + 2], bytes[at + 3]])
}

// As many words as there is place for, which the bytes have. By index: what an adapter of `iter_mut` leaves is not
// known.
pub fn read_words(bytes: &[u8], words: &mut [u32])
    requires { 4 * length words.old ≤ length bytes.now }
    ensures { words.new ≡ take (length words.old) (words_of bytes.now) }
{
    for i in 0..words.len() {
        words[i] = word_at(bytes, 4 * i);
    }
}

// A word's bytes at a byte.
pub fn put_word(bytes: &mut [u8], at: usize, word: u32)
    requires { at + 4 ≤ length bytes.old }
    ensures { bytes.new ≡ take at bytes.old ++ bytes_of (word ∷ []) ++ drop (at + 4) bytes.old }
{
    bytes[at..at + 4].copy_from_slice(&word.to_le_bytes());
}

// The bytes of words over the first bytes, which are as many or more.
fn encode(words: &[u32], bytes: &mut [u8])
    requires { 4 * length words.now ≤ length bytes.old }
    ensures { bytes.new ≡ over_bytes words.now bytes.old }
{
    for (k, word) in words.iter().enumerate() {
        put_word(bytes, 4 * k, *word);
    }
}

// Whether the bytes make whole words.
pub fn is_whole(bytes: &[u8]) -> bool
    ensures { result ≡ is_whole bytes.now }
{
    bytes.len() % 4 == 0
}

// The number of entries that a book's first word gives.
fn count_at(bytes: &[u8]) -> usize
    requires { 4 ≤ length bytes.now }
    ensures { result ≡ count_of (words_of bytes.now) }
{
    (word_at(bytes, 0) % KIND) as usize
}

// How many words the entries of a book use with some places more, a full book's at most.
fn used_with(count: usize, added: usize) -> usize
    requires { count < values }
    ensures { result ≡ min book_words (3 + 5 * (count + added)) }
{
    if MOST_ENTRIES < added {
        return BOOK_WORDS;
    }
    BOOK_WORDS.min(HEAD_WORDS + ENTRY_WORDS * (count + added))
}

// The same by a book's bytes; those of less than a word have no entries.
fn used(bytes: &[u8], added: usize) -> usize
    ensures { result ≡ used_with added (words_of bytes.now) }
{
    if bytes.len() < 4 {
        return used_with(0, added);
    }
    used_with(count_at(bytes), added)
}

// How many of a book's first words are read: none where its bytes make no whole words.
fn count_in(bytes: &[u8], most: usize) -> usize
    ensures { result ≡ count_in most bytes.now }
{
    if !is_whole(bytes) {
        return 0;
    }
    most.min(bytes.len() / 4)
}

// How many words of a book's bytes a call needs that adds some entries at most.
pub fn needed(bytes: &[u8], added: usize) -> usize
    ensures { result ≡ needed_for added bytes.now }
{
    count_in(bytes, used(bytes, added))
}

// A book's first words, read into the first of lent words; their number.
fn decode_first(bytes: &[u8], most: usize, words: &mut [u32]) -> usize
    requires { count_in most bytes.now ≤ length words.old }
    ensures { Decoded most bytes.now words.new result }
{
    let n = count_in(bytes, most);
    read_words(bytes, &mut words[..n]);
    n
}

// Those that a call needs.
pub fn decode(bytes: &[u8], added: usize, words: &mut [u32]) -> usize
    requires { needed_for added bytes.now ≤ length words.old }
    ensures { Decoded (used_with added (words_of bytes.now)) bytes.now words.new result }
{
    decode_first(bytes, used(bytes, added), words)
}

// Where a book's entries end, by its bytes, or where the words do.
fn end_of(words: usize, bytes: &[u8]) -> usize
    requires { (1 ≤ words) × (4 ≤ length bytes.now) }
    ensures { (1 ≤ result) × (result ≤ words) }
{
    used_with(count_at(bytes), 0).min(words)
}

// Words over the first bytes: those beyond the book's entries first, then those before, last and by itself the word with
// the count. So a host that is killed finds the book as it was or as it is to be.
fn store(words: &[u32], bytes: &mut [u8])
    requires in_bounds { 1 ≤ length words.now }
    requires words_in_bounds { 4 * length words.now ≤ length bytes.old }
    ensures { bytes.new ≡ over_bytes words.now bytes.old }
{
    let end = end_of(words.len(), bytes);
    let past = 4 * end;
    encode(&words[end..], &mut bytes[past..]);
    encode(&words[1..end], &mut bytes[4..]);
    put_word(bytes, 0, words[0]);
}

// The words that a done call left go back to the book's bytes; a refused one writes nothing.
pub fn write_back<T>(answer: &Result<T, Refusal>, words: &[u32], bytes: &mut [u8])
    requires { 4 * length words.now ≤ length bytes.old }
    ensures { bytes.new ≡ if_done (answer_of answer.now) (over_bytes words.now bytes.old) bytes.old }
{
    if answer.is_err() {
        return;
    }
    if !words.is_empty() {
        store(words, bytes);
    }
}
