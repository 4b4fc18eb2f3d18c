// The sales ceiling of a settlement period (01, 'Sales ceiling').
#![tactic(auto)]

ghost use Rattle.std.specs.Prelude.{◌≡◌, [], ◌∷◌, leb};
ghost use Rattle.numbers.specs.Tests.{every};
ghost use Rattle.rules.specs.Entry.{most_volume};
ghost use Rattle.rules.specs.Answers.{ceiling_answer_of};
ghost use Rattle.rules.specs.Ceiling.{is_recordable, ceiling_answer};

use rules::Refusal;
use rules::bounds::MOST_OFFER;

// Twice the offer that is recordable without position or capacity.
const TWICE_FREE: u64 = 50000;

// Whether an offer is recordable beside a net bilateral purchase, a net futures position and a capacity, or 12.
#[tactic(auto, unfolding(rules::specs::Ceiling::ceiling_answer, rules::specs::Ceiling::ceiling_cause))]
pub fn ceiling(offer: u32, bilateral: u32, futures: u32, capacity: u32) -> Result<bool, Refusal>
    ensures { ceiling_answer_of result ≡ ceiling_answer offer bilateral futures capacity }
{
    if !in_range(offer, bilateral, futures, capacity) {
        return Err(Refusal::BadFigure);
    }
    Ok(is_recordable(offer, bilateral, futures, capacity))
}

fn in_range(offer: u32, bilateral: u32, futures: u32, capacity: u32) -> bool
    ensures { result ≡ every (leb offer most_volume ∷ leb bilateral most_volume ∷ leb futures most_volume ∷ leb capacity most_volume ∷ []) }
{
    [offer, bilateral, futures, capacity]
        .iter()
        .all(|figure| *figure <= MOST_OFFER)
}

// 2 × O is at most (larger of 50,000 and 3 × (N + V)) + 2 × G; 64 bits hold both sides for any figures.
#[tactic(auto, unfolding(rules::specs::Ceiling::is_recordable))]
fn is_recordable(offer: u32, bilateral: u32, futures: u32, capacity: u32) -> bool
    ensures { result ≡ is_recordable offer bilateral futures capacity }
{
    let bought = u64::from(bilateral) + u64::from(futures);
    let covered = numbers::larger(TWICE_FREE, 3 * bought);
    2 * u64::from(offer) <= covered + 2 * u64::from(capacity)
}
