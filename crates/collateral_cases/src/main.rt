// Collateral against the list on standard input, whose figures are worked out by hand from document 01, 'Collateral'.
#![tactic(auto)]

mod figures;

use case_figures::Case;
use caselist::answers::is_refused;
use caselist::rows::Row;
use caselist::score::Score;
use rules::Items;

const NO_ITEMS: Items = Items {
    margin: 0,
    trading: 0,
    imbalance: 0,
    risk: 0,
    yek: 0,
    total: 0,
};

// A case with the figures of a row, each after its letter.
fn with_all(case: Case, figures: &[u64]) -> Case {
    figures.chunks_exact(2).fold(
        case,
        |case, figure| figures::with(case, figure[0], figure[1]),
    )
}

// Each item and the total.
fn done(book: &[u32], row: Row, case: Case) -> bool {
    let asked = with_all(case, &row.figures[6..]);
    let [margin, trading, imbalance, risk, yek, total, ..] = row.figures;
    let items = Items {
        margin,
        trading,
        imbalance,
        risk,
        yek,
        total,
    };
    collateral::collateral(book, asked) == Ok(items)
}

fn refused(book: &[u32], row: Row, case: Case) -> bool {
    let asked = with_all(case, &row.figures[1..7]);
    is_refused(
        collateral::collateral(book, asked),
        row.figures[0],
        NO_ITEMS,
    )
}

// What a row asks, or a step that makes the book.
fn asked(book: &mut [u32], row: Row, case: Case) -> bool {
    match row.call {
        b'D' => done(book, row, case),
        b'R' => refused(book, row, case),
        _ => caselist::steps::make(book, row),
    }
}

// The case of the rows that follow, a plain supplier's with these figures or with a month answer more; or a question on the
// words that are lent.
fn line(words: &mut [u32], case: &mut Case, row: Row, score: &mut Score) {
    match row.call {
        b'C' => *case = with_all(figures::plain(), &row.figures),
        b'A' => {
            let [place, aosmf, aedm, ..] = row.figures;
            *case = figures::with_month(*case, place, aosmf, aedm);
        }
        _ => {
            let holds = match words.get_mut(..score.lent()) {
                Some(book) => asked(book, row, *case),
                None => false,
            };
            score.check(row.line, holds);
        }
    }
}

fn main(rt: HostRuntime) {
    let mut words = [0u32; 15363];
    let mut case = figures::plain();
    caselist::score::run(&mut rt.stdin(), rt.stdout(), |row, score| {
        line(&mut words, &mut case, row, score)
    });
}
