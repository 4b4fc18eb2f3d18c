// The day file: lines posted into a book, all or none (document 01, 'Day file').
#![tactic(auto)]

ghost use Rattle.std.specs.Prelude.{◌≡◌};
ghost use Rattle.rules.specs.Answers.{file_read_of};
ghost use Rattle.rules.specs.DayFile.{is_file};
ghost use Rattle.rules.specs.Calls.{words_after, file_answer};
ghost use Rattle.rules.specs.Calls as calls;

use file_walk::walk;
use rules::Refusal;
use rules::bounds::MOST_FILE_BYTES;
use rules::layout::COUNT_WORD;
use words::Book;

mod post;

// Whether the bytes are a day file: their length, kinds, spare and status bits, and where they end.
pub fn is_file(file: &[u8]) -> bool
    ensures { result ≡ is_file file.now }
{
    let size = file.len();
    (size <= MOST_FILE_BYTES) & (size % 4 == 0) && walk::shaped(file)
}

// How many lines a file posts into a book, or why none.
fn lines_for(book: &[u32], file: &[u8]) -> Result<u32, Refusal>
    ensures { file_read_of result ≡ file_answer book.now file.now }
{
    let book = Book::of(book)?;
    if !is_file(file) {
        return Err(Refusal::BadFile);
    }
    file_check::answer_of(&book, file)
}

// Posts the lines of a file into a book, all of them or none, and answers how many.
pub fn read_file(book: &mut [u32], file: &[u8]) -> Result<u32, Refusal>
    ensures answer { file_read_of result ≡ file_answer book.old file.now }
    ensures words { book.new ≡ words_after book.old (calls.file file.now) }
{
    let lines = lines_for(book, file)?;
    let count = words::count_of(book);
    post::store_lines(book, file, count);
    book[0] = COUNT_WORD + (count + lines);
    Ok(lines)
}
