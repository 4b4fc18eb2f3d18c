// Internal: the items of collateral of a checked case (01, 'Collateral'). A caller meets the `requires`.
ghost use Rattle.std.specs.Prelude.{◌≡◌, true, Ok, cond, ◌&&◌, ◌≤◌, eqb, ltb};
ghost use Rattle.rules.specs.Answers.{collateral_answer_of};
ghost use Rattle.rules.specs.Words.{is_book, entries};
ghost use Rattle.rules.specs.Collateral.{generation_margin, margin, trading_days, trading, imbalance, risk, yek, collateral_of};

use crate::months;
use crate::ranges::CheckedCase;
use rules::Items;
use words::Book;

const FULL_MARGIN: u64 = 20000000;

#[tactic(auto, unfolding(rules::specs::Collateral::generation_margin))]
fn generation_margin(capacity: u64) -> u64
    ensures { result ≡ generation_margin capacity }
{
    if 1000000 < capacity {
        return FULL_MARGIN;
    }
    if 50000 <= capacity {
        20 * capacity
    } else {
        1000000
    }
}

// k: the latest days that each market chooses.
#[tactic(auto, unfolding(rules::specs::Collateral::trading_days))]
fn trading_days(nonbusiness: u32) -> u32
    requires { nonbusiness ≤ 29 }
    ensures { result ≡ trading_days nonbusiness }
{
    if nonbusiness <= 2 { 3 } else { 1 + nonbusiness }
}

// q, before a holiday or not, with k days.
fn quarters_of(holiday: u32, days: u32) -> u64
    ensures { result ≡ cond (eqb holiday 1 && ltb 3 days) 3 4 }
{
    if (holiday == 1) & (3 < days) { 3 } else { 4 }
}

impl CheckedCase {
    #[tactic(auto, unfolding(rules::specs::Collateral::margin))]
    fn margin(&self) -> u64
        ensures { result ≡ margin self.now.case }
    {
        let margin = &self.case.margin;
        if margin.licence == 2 {
            generation_margin(margin.capacity)
        } else {
            FULL_MARGIN
        }
    }

    // D × (20 + t) × q / 80. A caller learns that the book is one.
    fn trading(&self, book: &Book<'_>) -> u64
        ensures trading { result ≡ trading self.now.case (entries book.now) }
        ensures book { is_book book.now ≡ true }
    {
        let asked = &self.case.asked;
        let trading = &self.case.trading;
        let days = trading_days(trading.nonbusiness);
        let debt = trading_debts::debt_of(book, asked.party, asked.day, days);
        let weight = 20 + u64::from(trading.defaults);
        let quarters = quarters_of(trading.holiday, days);
        numbers::round_up(debt * weight * quarters, 80)
    }

    // RK × highest AOSMF × |lowest AEDM| / 100,000 where the lowest is negative; none for a party not responsible for its group.
    fn imbalance(&self) -> u64
        ensures { result ≡ imbalance self.now.case }
    {
        let group = &self.case.group;
        if group.responsible != 1 {
            return 0;
        }
        let used = months::used_months(&group.months, group.used);
        let volume = months::lowest_volume(used);
        if volume < 0 {
            let price = months::highest_price(used);
            let product = u64::from(group.rk) * price * numbers::magnitude(volume);
            numbers::round_up(product, 100000)
        } else {
            0
        }
    }

    // RT, of a party responsible for its group.
    #[tactic(auto, unfolding(rules::specs::Collateral::risk))]
    fn risk(&self) -> u64
        ensures { result ≡ risk self.now.case }
    {
        let group = &self.case.group;
        if group.responsible == 1 { group.rt } else { 0 }
    }

    #[tactic(auto, unfolding(rules::specs::Collateral::yek))]
    fn yek(&self) -> u64
        ensures { result ≡ yek self.now.case }
    {
        let yek = &self.case.yek;
        let best = u64::from(yek.best);
        let score = u64::from(yek.score);
        let share = (5 * (best - score)).max(best);
        numbers::round_up(yek.yt * share, 5 * best)
    }

    // Each item, and the larger of margin and trading with the others as the total.
    pub fn items(&self, book: &Book<'_>) -> Items
        ensures { collateral_answer_of (Ok result) ≡ collateral_of self.now.case (entries book.now) }
    {
        let margin = self.margin();
        let trading = self.trading(book);
        let imbalance = self.imbalance();
        let risk = self.risk();
        let yek = self.yek();
        let total = margin.max(trading) + imbalance + risk + yek;
        Items {
            margin,
            trading,
            imbalance,
            risk,
            yek,
            total,
        }
    }
}
