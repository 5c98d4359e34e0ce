// The groups of the best path: its states read back from the journal, a group at a time, the last one first.
#![tactic(auto)]

pub mod gather;
pub mod group;
