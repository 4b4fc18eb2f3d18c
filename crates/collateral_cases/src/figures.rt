// A case by its figures: a letter says which figure a number is (01, 'Collateral').
use case_figures::{Case, Month};
use caselist::rows::{letter, low};

// A plain supplier's case of party 1 and day 100.
pub fn plain() -> Case {
    Case::supplier().with_party(1).with_day(100)
}

// The case with one figure more; without a letter it stays.
pub fn with(case: Case, name: u64, value: u64) -> Case {
    match letter(name) {
        0 => case,
        b'p' => case.with_party(low(value)),
        b'g' => case.with_day(low(value)),
        b'l' => case.with_licence(low(value)),
        b'c' => case.with_capacity(value),
        b'h' => case.with_nonbusiness(low(value)),
        b'b' => case.with_holiday(low(value)),
        b't' => case.with_defaults(low(value)),
        b'r' => case.with_responsible(low(value)),
        b'n' => case.with_used(low(value)),
        b'k' => case.with_rk(low(value)),
        b'i' => case.with_rt(value),
        b'y' => case.with_yt(value),
        b's' => case.with_score(low(value)),
        _ => case.with_best(low(value)),
    }
}

// The case with a month answer at this place.
pub fn with_month(case: Case, place: u64, aosmf: u64, aedm: u64) -> Case {
    let mut months = case.group.months;
    months[(place % 3) as usize] = Month {
        aosmf,
        aedm: aedm.cast_signed(),
    };
    case.with_months(months)
}
