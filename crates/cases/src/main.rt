// Reads the case language from standard input and answers every line of it.
#![tactic(auto)]

mod building;
mod cases;
mod collapsing;
mod list;

use crate::cases::Cases;
use crate::list::List;
use answers::input::Reader;
use answers::session::Session;
use std::io;

// A stretch of the input: twice what a line may take.
const TEXT_BYTES: usize = 2097152;

const JOURNAL_WORDS: usize = 700000;

// An array in a function of its own: there alone its entries are looked at by the check.
fn new_text() -> [u8; TEXT_BYTES] {
    [0; TEXT_BYTES]
}

fn new_journal() -> [u32; JOURNAL_WORDS] {
    [0; JOURNAL_WORDS]
}

fn main(rt: HostRuntime) -> io::Result<()> {
    let mut text = new_text();
    let mut input = Reader::new(&mut text, rt.stdin());
    let mut journal = new_journal();
    let mut cases = Cases {
        session: Session::new(rt.stdout()),
        journal: &mut journal,
        words: 0,
        list: List::empty(),
    };
    cases.run(&mut input)
}
