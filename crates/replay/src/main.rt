// Reads a network, settings and a journal in the case language from standard input, and prints the first row that feeding would not write, or clean.
#![tactic(auto)]

mod drive;

use answers::input::Reader;
use answers::session::Session;
use std::io;

// A stretch of the input: twice what a line may take.
const TEXT_BYTES: usize = 1048576;

// An array in a function of its own: there alone its entries are looked at by the check.
fn new_text() -> [u8; TEXT_BYTES] {
    [0; TEXT_BYTES]
}

fn main(rt: HostRuntime) -> io::Result<()> {
    let mut text = new_text();
    let mut input = Reader::new(&mut text, rt.stdin());
    let mut session = Session::new(rt.stdout());
    drive::run(&mut input, &mut session)
}
