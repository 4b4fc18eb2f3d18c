// Collateral on a book in lent bytes and the figures of a case (document 01, 'Collateral').
ghost use Rattle.std.specs.Prelude.{◌≡◌};
ghost use Rattle.rules.specs.Refusals.{not_a_book};
ghost use Rattle.rules.specs.Collateral.{collateral_answer, refused_collateral};
ghost use Rattle.word_bytes.specs.Bytes.{on_words};
ghost use Rattle.collateral_case.specs.Cases.{case_of};

use byte_reports::collaterals;
use rules::Collateral;

// Each item of collateral and the total of a case.
#[unsafe(no_mangle)]
pub extern "C" fn fanzsoreb_collateral(
    book: &[u8],
    party: u32,
    day: u32,
    licence: u32,
    capacity: u64,
    nonbusiness: u32,
    holiday: u32,
    defaults: u32,
    responsible: u32,
    aosmf1: u64,
    aedm1: i64,
    aosmf2: u64,
    aedm2: i64,
    aosmf3: u64,
    aedm3: i64,
    used: u32,
    rk: u32,
    rt: u64,
    yt: u64,
    score: u32,
    best: u32,
) -> Collateral
    ensures { result ≡ on_words book.now (λ ws. collateral_answer ws (case_of party day licence capacity nonbusiness holiday defaults responsible aosmf1 aedm1 aosmf2 aedm2 aosmf3 aedm3 used rk rt yt score best)) (refused_collateral not_a_book) }
{
    let case = collateral_case::case_of(
        party,
        day,
        licence,
        capacity,
        nonbusiness,
        holiday,
        defaults,
        responsible,
        aosmf1,
        aedm1,
        aosmf2,
        aedm2,
        aosmf3,
        aedm3,
        used,
        rk,
        rt,
        yt,
        score,
        best,
    );
    collaterals::secure(book, case).into()
}
