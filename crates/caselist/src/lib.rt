// What the test programs share: a list of cases read as rows, the run of a list with the counts of what holds, answers as a list
// has them, and the words of a book that a test writes itself.
#![tactic(auto)]

pub mod answers;
pub mod book_words;
pub mod pair;
pub mod rows;
pub mod score;
pub mod steps;
