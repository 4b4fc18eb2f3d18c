// A collateral case out of its figures, in the order of the C call (document 01, 'Collateral').
#![tactic(auto)]

ghost use Rattle.std.specs.Prelude.{◌≡◌, [], ◌∷◌};
ghost use Rattle.collateral_case.specs.Cases.{month_of, case_of};

use case_figures::{Asked, Case, Group, Margin, Month, Trading, Yek};

fn month_of(aosmf: u64, aedm: i64) -> Month
    ensures { result ≡ month_of aosmf aedm }
{
    Month { aosmf, aedm }
}

fn months_of(
    aosmf1: u64,
    aedm1: i64,
    aosmf2: u64,
    aedm2: i64,
    aosmf3: u64,
    aedm3: i64,
) -> [Month; 3]
    ensures { result ≡ month_of aosmf1 aedm1 ∷ month_of aosmf2 aedm2 ∷ month_of aosmf3 aedm3 ∷ [] }
{
    [
        month_of(aosmf1, aedm1),
        month_of(aosmf2, aedm2),
        month_of(aosmf3, aedm3),
    ]
}

// The case of these figures, which the C call passes one by one; the months come latest first.
pub fn case_of(
    party: u32,
    day: u32,
    licence: u32,
    capacity: u64,
    nonbusiness: u32,
    holiday: u32,
    defaults: u32,
    responsible: u32,
    aosmf1: u64,
    aedm1: i64,
    aosmf2: u64,
    aedm2: i64,
    aosmf3: u64,
    aedm3: i64,
    used: u32,
    rk: u32,
    rt: u64,
    yt: u64,
    score: u32,
    best: u32,
) -> Case
    ensures { result ≡ case_of party day licence capacity nonbusiness holiday defaults responsible aosmf1 aedm1 aosmf2 aedm2 aosmf3 aedm3 used rk rt yt score best }
{
    Case {
        asked: Asked { party, day },
        margin: Margin { licence, capacity },
        trading: Trading {
            nonbusiness,
            holiday,
            defaults,
        },
        group: Group {
            responsible,
            months: months_of(aosmf1, aedm1, aosmf2, aedm2, aosmf3, aedm3),
            used,
            rk,
            rt,
        },
        yek: Yek { yt, score, best },
    }
}
