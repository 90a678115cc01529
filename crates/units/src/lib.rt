// The desk's numbers: three kinds of level that are never mixed, the range of each figure and of
// each setting, and what is refused. A test of a range is false at a NaN.

#![tactic(auto)]

pub mod figures;
pub mod kinds;
pub mod refusals;
pub mod settings;
