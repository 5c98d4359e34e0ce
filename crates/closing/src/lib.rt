// Calls on a journal that only read it: closing, and reading a row back.
#![tactic(auto)]

pub mod close;
pub mod row;
pub mod start;
pub mod walk;
