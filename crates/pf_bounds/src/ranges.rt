use pf_ints::IntervalList;

/// The intervals in which the numbers of the taps and of the definitions lie.
#[derive(Drop)]
pub struct Ranges {
    pub taps: IntervalList,
    pub defs: IntervalList,
}
