// Internal: the debts of the latest days that each market chooses (01, 'Collateral', Trading).
#![tactic(auto)]

ghost use Rattle.std.specs.Prelude.{◌≡◌, true, cond, ◌+◌, ◌-◌, ◌*◌, ◌≤◌, get_or};
ghost use Rattle.rules.specs.Words.{is_book, entries};
ghost use Rattle.rules.specs.Collateral.{debts, money_of};
ghost use Rattle.trading_debts.specs.Window.{most_in_cell, money_in};
ghost use Rattle.trading_debts.specs.Walk.{chosen, left_after, owed};

mod window;

use window::{WINDOW_DAYS, Window};
use words::Book;

// What a party bought and sold on a day, in one market.
#[derive(Clone, Copy)]
struct Trades {
    bought: u64,
    sold: u64,
    ghost bought_within: { bought ≤ most_in_cell },
    ghost sold_within: { sold ≤ most_in_cell },
}

impl Trades {
    // A market with days left to choose takes a day with money.
    fn chosen(self, left: u32) -> bool
        ensures { result ≡ chosen left self.bought self.sold }
    {
        (0 < left) & (0 < self.bought + self.sold)
    }

    // What counts of the day: all, or nothing where the market did not choose it.
    fn counted(self, chosen: bool) -> Trades
        ensures bought { result.bought ≡ cond chosen self.bought 0 }
        ensures sold { result.sold ≡ cond chosen self.sold 0 }
    {
        if chosen {
            self
        } else {
            Trades { bought: 0, sold: 0 }
        }
    }
}

// Purchases − sales over both markets, or 0 if negative.
fn owed_on(ahead: Trades, intraday: Trades) -> u64
    ensures { result ≡ (ahead.bought + intraday.bought) - (ahead.sold + intraday.sold) }
{
    (ahead.bought + intraday.bought).saturating_sub(ahead.sold + intraday.sold)
}

// The debts of the days passed, and the days that each market still chooses.
#[derive(Clone, Copy)]
struct Walk {
    debt: u64,
    ahead: u32,
    intraday: u32,
}

impl Walk {
    // One day further back.
    fn day_before(self, ahead: Trades, intraday: Trades) -> Walk
        requires { self.debt ≤ 30 * (2 * most_in_cell) }
        ensures debt { result.debt ≡ self.debt + owed (chosen self.ahead ahead.bought ahead.sold) (chosen self.intraday intraday.bought intraday.sold) ahead.bought ahead.sold intraday.bought intraday.sold }
        ensures ahead { result.ahead ≡ left_after self.ahead ahead.bought ahead.sold }
        ensures intraday { result.intraday ≡ left_after self.intraday intraday.bought intraday.sold }
    {
        let by_ahead = ahead.chosen(self.ahead);
        let by_intraday = intraday.chosen(self.intraday);
        let owed = owed_on(ahead.counted(by_ahead), intraday.counted(by_intraday));
        Walk {
            debt: self.debt + owed,
            ahead: self.ahead.saturating_sub(u32::from(by_ahead)),
            intraday: self.intraday.saturating_sub(u32::from(by_intraday)),
        }
    }
}

// What is in two cells of the window: a market's purchases and sales of a day.
fn trades_at(window: &Window, at: usize) -> Trades
    requires { at + 2 ≤ 120 }
    ensures bought { result.bought ≡ get_or window.now.cells at 0 }
    ensures sold { result.sold ≡ get_or window.now.cells (at + 1) 0 }
{
    Trades {
        bought: window.cells[at],
        sold: window.cells[at + 1],
    }
}

// D: each market chooses its latest k days with money, and a day's debt is over the markets that chose it. The window ends
// at day 0.
fn debts_of(window: &Window, day: u32, k: u32) -> u64
    ensures { result ≡ debts (money_in window.now.cells day) 30 day k k }
{
    let mut walk = Walk {
        debt: 0,
        ahead: k,
        intraday: k,
    };
    for i in 0..day.min(WINDOW_DAYS) {
        let at = 4 * (i as usize);
        walk = walk.day_before(trades_at(window, at), trades_at(window, at + 2));
    }
    walk.debt
}

// D of a party on day g, with k days a market. A caller learns that the book is one.
pub fn debt_of(book: &Book<'_>, party: u32, day: u32, k: u32) -> u64
    ensures debt { result ≡ debts (money_of party (entries book.now)) 30 day k k }
    ensures book { is_book book.now ≡ true }
{
    debts_of(&Window::of(book, party, day), day, k)
}
