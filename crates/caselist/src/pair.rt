// The words of a book, and the words that the list says they are.
use crate::score::Score;

#[derive(Drop)]
pub struct Pair<'a> {
    pub book: &'a mut [u32],
    pub expected: &'a mut [u32],
}

impl<'a> Pair<'a> {
    // The first words of both, where there are so many.
    pub fn first(self, n: usize) -> Option<Pair<'a>> {
        let Pair { book, expected } = self;
        Some(Pair {
            book: book.get_mut(..n)?,
            expected: expected.get_mut(..n)?,
        })
    }

    pub fn is_same(&self) -> bool {
        let book = &*self.book;
        let expected = &*self.expected;
        book == expected
    }

    // After a call its answer is compared, and every word.
    pub fn compare(&self, line: u64, answered: bool, score: &mut Score) {
        score.check(line, answered);
        score.check(line, self.is_same());
    }
}
