// What the programs that read the case language share: their memory, the input line by line, and the lines but for those on segments, with what each
// reads of the text, which call it makes, and what it prints.
#![tactic(auto)]

pub mod cuts;
pub mod drive;
pub mod fill;
pub mod held_network;
pub mod input;
pub mod listing;
pub mod path;
pub mod print;
pub mod replay;
pub mod routes;
pub mod row;
pub mod session;
pub mod setup;
pub mod words;
