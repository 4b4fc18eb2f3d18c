// Internal: any call on a book in lent bytes, whose words are read into an array by the book's size. The caller of each
// function with a `requires` meets it.
#![tactic(auto)]

ghost use Rattle.std.specs.Prelude.{◌≤◌};
ghost use Rattle.std.specs.Fn.{FnOnceReturnsAt, FnOnceReturnsAtMut};
ghost use Rattle.byte_calls.specs.Calls.{CanAsk, Asked, Changed};
ghost use Rattle.rules.specs.Words.{book_words, used_with};
ghost use Rattle.rules.specs.DayFile.{words_of};
ghost use Rattle.word_bytes.specs.Coding.{needed_for, words_in};

use rules::Refusal;
use rules::layout::BOOK_WORDS;
use sizes::{MIDDLE_WORDS, SMALL_WORDS, WIDE_WORDS};

mod sizes;

// The call on the words that count, in an array of N.
#[inline(never)]
fn ask_in<const N: usize, S, R, F: FnOnce(&[u32], &mut S) -> R>(
    book: &[u8],
    lent: &mut S,
    f: F,
) -> R
    requires fits { needed_for 0 book.now ≤ N }
    requires most { N ≤ book_words }
    requires callable { CanAsk (F.pre f) lent.old }
    ensures { Asked (F.post f) (words_in (used_with 0 (words_of book.now)) book.now) lent.old result lent.new }
{
    let mut words = [0u32; N];
    let n = word_bytes::decode(book, 0, &mut words);
    f(&words[..n], lent)
}

// Any call that only reads a book, and may fill what it is lent.
pub fn ask_with<S, R, F: FnOnce(&[u32], &mut S) -> R>(book: &[u8], lent: &mut S, f: F) -> R
    requires { CanAsk (F.pre f) lent.old }
    ensures { Asked (F.post f) (words_in (used_with 0 (words_of book.now)) book.now) lent.old result lent.new }
{
    let n = word_bytes::needed(book, 0);
    if n <= SMALL_WORDS {
        return ask_in::<SMALL_WORDS, S, R, F>(book, lent, f);
    }
    if n <= MIDDLE_WORDS {
        return ask_in::<MIDDLE_WORDS, S, R, F>(book, lent, f);
    }
    if n <= WIDE_WORDS {
        return ask_in::<WIDE_WORDS, S, R, F>(book, lent, f);
    }
    ask_in::<BOOK_WORDS, S, R, F>(book, lent, f)
}

// The same where it answers alone.
pub fn ask<R, F: FnOnce(&[u32]) -> R>(book: &[u8], f: F) -> R
    requires { F.IsAlwaysCallable f }
    ensures { FnOnceReturnsAt F.FnOnce f (words_in (used_with 0 (words_of book.now)) book.now) result }
{
    ask_with(book, &mut (), |words, _| f(words))
}

// The call on the words that count, in an array of N; those that a done call left go back to the bytes.
#[inline(never)]
fn change_in<const N: usize, T, F: FnOnce(&mut [u32]) -> Result<T, Refusal>>(
    book: &mut [u8],
    places: usize,
    f: F,
) -> Result<T, Refusal>
    requires fits { needed_for places book.old ≤ N }
    requires most { N ≤ book_words }
    requires callable { F.IsAlwaysCallable f }
    ensures { Changed (FnOnceReturnsAtMut F.FnOnce f) (words_in (used_with places (words_of book.old)) book.old) result book.old book.new }
{
    let mut words = [0u32; N];
    let n = word_bytes::decode(book, places, &mut words);
    let answer = f(&mut words[..n]);
    word_bytes::write_back(&answer, &words[..n], book);
    answer
}

// Any call that changes a book and adds so many entries at most. The sizes are chosen as in `ask_with`: no function takes one
// that is generic in a size.
pub fn change<T, F: FnOnce(&mut [u32]) -> Result<T, Refusal>>(
    book: &mut [u8],
    places: usize,
    f: F,
) -> Result<T, Refusal>
    requires { F.IsAlwaysCallable f }
    ensures { Changed (FnOnceReturnsAtMut F.FnOnce f) (words_in (used_with places (words_of book.old)) book.old) result book.old book.new }
{
    let n = word_bytes::needed(book, places);
    if n <= SMALL_WORDS {
        return change_in::<SMALL_WORDS, T, F>(book, places, f);
    }
    if n <= MIDDLE_WORDS {
        return change_in::<MIDDLE_WORDS, T, F>(book, places, f);
    }
    if n <= WIDE_WORDS {
        return change_in::<WIDE_WORDS, T, F>(book, places, f);
    }
    change_in::<BOOK_WORDS, T, F>(book, places, f)
}
