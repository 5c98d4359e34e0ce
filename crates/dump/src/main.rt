// Reads a network, settings and fixes in the case language from standard input, and prints the used words of their journal.
#![tactic(auto)]

mod drive;

use answers::input::Reader;
use answers::session::Session;
use std::io;

// A stretch of the input: twice what a line may take.
const TEXT_BYTES: usize = 1048576;

// The most words of the journal, so that 10,000 rows of 4 candidates fit, which take 65 words each.
const JOURNAL_WORDS: usize = 700000;

// An array in a function of its own: there alone its entries are looked at by the check.
fn new_text() -> [u8; TEXT_BYTES] {
    [0; TEXT_BYTES]
}

fn new_journal() -> [u32; JOURNAL_WORDS] {
    [0; JOURNAL_WORDS]
}

fn main(rt: HostRuntime) -> io::Result<()> {
    let mut text = new_text();
    let mut journal = new_journal();
    let mut input = Reader::new(&mut text, rt.stdin());
    let mut session = Session::new(rt.stdout());
    drive::run(&mut input, &mut session, &mut journal)
}
