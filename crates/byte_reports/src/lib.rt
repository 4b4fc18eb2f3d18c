// Internal: collateral and the month report on a book in lent bytes. `host` exports them.
#![tactic(auto)]

pub mod collaterals;
pub mod reports;
