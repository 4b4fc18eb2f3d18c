// Leaves that later crates call: absolute value, the larger of two, and the two roundings.
#![tactic(auto)]

ghost use Rattle.std.specs.Prelude.{◌≡◌, max, nat_abs};
ghost use Rattle.numbers.specs.Rounding.{half_up, round_up};

// 2^63, the size of the lowest signed figure.
const LOWEST: u64 = 9223372036854775808;

// The absolute value of a signed figure, by arithmetic (02, T-04). Without its sign bit a figure is itself, or 2^63 more where
// it is below zero. Not `unsigned_abs`, which has a branch in the library's source.
pub fn magnitude(x: i64) -> u64
    ensures { result ≡ nat_abs x }
{
    let below = (x < 0) as u64;
    let bits = (x & i64::MAX) as u64;
    bits * (1 - below) + (LOWEST - bits) * below
}

// The larger of two figures, by the library; docs/CALLS.md names it.
pub fn larger(a: u64, b: u64) -> u64
    ensures { result ≡ max a b }
{
    a.max(b)
}

// a / b, halves up; 0 where b is 0.
pub fn half_up(a: u64, b: u64) -> u64
    ensures { result ≡ half_up a b }
{
    if b == 0 {
        return 0;
    }
    let rest = a % b;
    if rest < b - rest { a / b } else { a / b + 1 }
}

// a / b, up; 0 where b is 0.
pub fn round_up(a: u64, b: u64) -> u64
    ensures { result ≡ round_up a b }
{
    if b == 0 {
        return 0;
    }
    a.div_ceil(b)
}
