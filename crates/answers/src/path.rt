// Closing.
use crate::fill::{FILL, words_kept};
use crate::print::Output;
use crate::session::Session;
use closing::close::{BestPath, close};
use text::keyword::Slice;
use text::list::first;

// More than the pairs of the longest path: a row of it takes 12 words of the journal or more.
const STATES: usize = 60000;

fn print_path(out: &mut Output, path: BestPath, rows: &[u32], candidates: &[u32]) {
    out.bytes(b"close");
    out.float(path.score);
    out.count(path.pairs);
    out.end_line();
    for (row, candidate) in rows.iter().zip(candidates) {
        out.bytes(b"at");
        out.number(*row);
        out.number(*candidate);
        out.end_line();
    }
}

impl Session {
    // Never inlined: other lines do not need so much stack.
    #[inline(never)]
    pub fn close(&mut self, journal: &[u32]) {
        let mut rows = [FILL; STATES];
        let mut candidates = [FILL; STATES];
        let room = self.cuts.cut(Slice::Answer, STATES);
        let answer = close(journal, &mut rows[..room], &mut candidates[..room]);
        self.cuts.release(Slice::Answer, Slice::Answer);
        let mut n = 0;
        match answer {
            Ok(None) => self.out.bytes(b"close none\n"),
            Ok(Some(path)) => {
                n = path.pairs;
                print_path(&mut self.out, path, first(&rows, n), first(&candidates, n));
            }
            Err(refusal) => self.out.refusal(b"close", refusal),
        }
        self.kept = words_kept(&rows, n) && words_kept(&candidates, n);
    }
}
