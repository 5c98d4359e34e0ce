// Replaying a journal: the first row whose words differ from what feeding its own recorded fix would write.
#![tactic(auto)]

mod cells;
mod compare;
pub mod replay;
mod row;
