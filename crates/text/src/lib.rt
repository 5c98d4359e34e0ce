// The words of the case language: found in a text, read and written.
#![tactic(auto)]

pub mod cursor;
pub mod float;
pub mod keyword;
pub mod list;
mod number;
pub mod window;
pub mod word;
pub mod write;
