// Replaying the journal.
use crate::print::Output;
use crate::session::Session;
use refusals::Refusal;
use replaying::replay::replay;
use text::keyword::Slice;

// What replaying answers, with some bytes before the number of a row.
fn print_replayed(out: &mut Output, before: &[u8], answer: Result<Option<u32>, Refusal>) {
    match answer {
        Ok(None) => out.bytes(b"clean\n"),
        Ok(Some(row)) => {
            out.bytes(before);
            out.digits(row);
            out.end_line();
        }
        Err(refusal) => {
            out.bytes(b"refused");
            out.number(refusal.number());
            out.end_line();
        }
    }
}

impl Session {
    pub fn replay(&mut self, journal: &[u32]) {
        let answer = replay(&self.network.lend(&self.cuts), self.settings, journal);
        self.cuts.release(Slice::Lengths, Slice::WindowLasts);
        self.out.bytes(b"replay ");
        print_replayed(&mut self.out, b"row ", answer);
    }

    // The answer alone, on a line, of the whole network.
    pub fn tell_replay(&mut self, journal: &[u32]) {
        let answer = replay(&self.network.lend(&self.cuts), self.settings, journal);
        print_replayed(&mut self.out, b"", answer);
    }
}
