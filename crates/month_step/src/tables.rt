// Internal: the tables of a month, in words or in bytes (01, 'Month step').

// An hourly price; the imbalance, a row a group; an hourly DM; and the group asked.
#[derive(Clone, Copy)]
pub struct MonthTables<P, V> {
    pub prices: P,
    pub imbalance: V,
    pub rows: u32,
    pub dm: V,
    pub group: u32,
}
