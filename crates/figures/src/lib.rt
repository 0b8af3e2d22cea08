// Running figures of what comes one by one: the least, the greatest and the sum of values, and how many bytes had each
// bit. Definitions and laws alone; crate `figures_kept` keeps them. Nothing here is of one chip.
#![tactic(auto)]

// The figure of one reading. How many samples there were is kept once, beside the figures of all readings.
#[derive(Clone, Copy)]
pub struct Figure {
    pub least: i64,
    pub greatest: i64,
    pub sum: i64,
}
