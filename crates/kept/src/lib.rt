// The chain and the limiter as a caller in another language keeps them: states in C's layout, and the calls over
// them.

#![tactic(auto)]

pub mod calls;
pub mod states;
