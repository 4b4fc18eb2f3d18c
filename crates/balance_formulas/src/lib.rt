// Internal: both balances of a party's day, for the crates above (01, 'The two balances').
#![tactic(auto)]

ghost use Rattle.std.specs.Prelude.{◌≡◌, ◌+◌, ◌*◌, ◌≤◌, max};
ghost use Rattle.std.proofs.Math.IntN.{sub_ℕ};
ghost use Rattle.balance_formulas.specs.Bounded.{SumsWithin, most_sum};
ghost use Rattle.balance_formulas.specs.Sides.{cover_with};
ghost use Rattle.rules.specs.Words.{most_coefficient, most_tolerance};
ghost use Rattle.rules.specs.Balance.{balance_of, sale_side, acquired, day_ahead, delivery};

use rules::PartyDay;

// A difference of two figures, signed.
fn difference(a: u64, b: u64) -> i64
    requires first { a ≤ 4611686018427387904 }
    requires second { b ≤ 4611686018427387904 }
    ensures { result ≡ sub_ℕ a b }
{
    (a as i64) - (b as i64)
}

// R in hundredths and TM in kWh, of a book.
#[derive(Clone, Copy, Debug, PartialEq, Eq)]
pub struct Tolerances {
    pub coefficient: u32,
    pub tolerance: u32,
    ghost coefficient_within: { coefficient ≤ most_coefficient },
    ghost tolerance_within: { tolerance ≤ most_tolerance },
}

impl Tolerances {
    // The balance of S and C. The cover tolerance R is on the cover side alone. A caller meets each `requires`.
    pub fn balanced(self, sale: u64, cover: u64) -> i64
        requires sale { sale ≤ 6 * most_sum }
        requires cover { cover ≤ 10 * most_sum }
        ensures { result ≡ sub_ℕ (100 * sale) (max (100 * self.tolerance) (cover * self.coefficient)) }
    {
        let least = 100 * u64::from(self.tolerance);
        let held = cover * u64::from(self.coefficient);
        difference(100 * sale, least.max(held))
    }
}

// What both balances of a party's day are made of, as a book has it.
#[derive(Clone, Copy)]
pub struct Figures {
    pub day: PartyDay,
    pub tolerances: Tolerances,
    ghost sums_within: { SumsWithin day.tally.sums },
    ghost bought_within: { day.bought ≤ most_sum },
}

impl Figures {
    // S of the day-ahead: sums 1, 3, 4 and 6 (Article 7).
    #[tactic(auto, unfolding(rules::specs::Balance::sale_side, numbers::specs::Sums::total))]
    fn ahead_sale(&self) -> u64
        ensures value { result ≡ sale_side day_ahead self.now.day.tally }
        ensures within { result ≤ 4 * most_sum }
    {
        let s = &self.day.tally.sums;
        s[0] + s[2] + s[3] + s[5]
    }

    // A: what others sold to the party, and the larger of capacity tender and import notification, sums 15 and 16.
    #[tactic(auto, unfolding(rules::specs::Balance::acquired))]
    fn acquired(&self) -> u64
        ensures value { result ≡ acquired self.now.day.tally self.now.day.bought }
        ensures within { result ≤ 2 * most_sum }
    {
        let s = &self.day.tally.sums;
        self.day.bought + s[14].max(s[15])
    }

    // C without intraday purchases: sums 7, 9, 10, 13 and 14, the generation program used, and A.
    #[tactic(auto, unfolding(crate::specs::Sides::cover_with, numbers::specs::Sums::total))]
    fn cover_with(&self, program: u64) -> u64
        requires { program ≤ most_sum }
        ensures value { result ≡ cover_with self.now.day.tally program self.now.day.bought }
        ensures within { result ≤ 8 * most_sum }
    {
        let s = &self.day.tally.sums;
        s[6] + s[8] + s[9] + s[12] + s[13] + program + self.acquired()
    }

    // The day-ahead balance keeps the program of sum 12 (Article 7).
    #[tactic(auto, unfolding(rules::specs::Balance::balance_of, rules::specs::Balance::cover_side, rules::specs::Balance::program_used, crate::specs::Sides::cover_with))]
    pub fn day_ahead(&self) -> i64
        ensures { result ≡ balance_of day_ahead self.now.tolerances.coefficient self.now.tolerances.tolerance self.now.day.tally self.now.day.bought }
    {
        let cover = self.cover_with(self.day.tally.sums[11]);
        self.tolerances.balanced(self.ahead_sale(), cover)
    }

    // Delivery counts the intraday market too: sums 2 and 5, and 8 and 11 (Article 5). A generation program that an update
    // raised is the one used, the larger of sums 12 and 22 (Article 5, paragraph 3).
    #[tactic(auto, unfolding(rules::specs::Balance::balance_of, rules::specs::Balance::sale_side, rules::specs::Balance::cover_side, rules::specs::Balance::program_used, crate::specs::Sides::cover_with, numbers::specs::Sums::total))]
    pub fn delivery(&self) -> i64
        ensures { result ≡ balance_of delivery self.now.tolerances.coefficient self.now.tolerances.tolerance self.now.day.tally self.now.day.bought }
    {
        let s = &self.day.tally.sums;
        let sale = self.ahead_sale() + s[1] + s[4];
        let cover = self.cover_with(s[11].max(s[16])) + s[7] + s[10];
        self.tolerances.balanced(sale, cover)
    }
}
