// The journal: records of rows in 32-bit words, check 7, opening and striking.
#![tactic(auto)]

pub mod buffer;
pub mod call;
pub mod check;
pub mod fix;
pub mod float;
mod halves;
pub mod lengths;
pub mod range;
pub mod read;
pub mod record;
