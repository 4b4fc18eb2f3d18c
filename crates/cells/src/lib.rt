// Internal: sums over entries as the cells of a table: definitions (specs/) and laws (proofs/) for the crates that scan a book,
// and what adds an amount to a cell. A caller meets its `requires`.
#![tactic(auto)]

ghost use Rattle.std.specs.Prelude.{◌≡◌, cond, ◌+◌, ◌^◌, ◌<◌, get_or};
ghost use Rattle.cells.specs.Cells.{add_to};

// An amount of an entry where a test holds, else 0. They are multiplied: a branch on an entry's type, day or status would be
// mispredicted.
pub fn amount_if(test: bool, amount: u64) -> u64
    ensures { result ≡ cond test amount 0 }
{
    u64::from(test) * amount
}

// An amount more in a cell of a table.
pub fn add_to<const N: usize>(table: &mut [u64; N], cell: usize, amount: u64)
    requires within { cell < N }
    requires fits { get_or table.old cell 0 + amount < 2 ^ 64 }
    ensures { table.new ≡ add_to table.old cell amount }
{
    table[cell] += amount;
}
