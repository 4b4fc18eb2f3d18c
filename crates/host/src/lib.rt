// The calls for hosts in C on numbers and byte slices (document 01, 'Day file').
#![tactic(auto)]

pub mod books;
pub mod collaterals;
pub mod days;
pub mod figures;
pub mod months;
pub mod positions;
pub mod reports;
