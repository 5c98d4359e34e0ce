// Listing a row's steps.
use crate::drive::PAIRS;
use crate::fill::{FILL, FILL_FLOAT, floats_kept, words_kept};
use crate::print::Output;
use crate::session::Session;
use crate::words::Words;
use steps::list::list_steps;
use text::keyword::Slice;

// The buffers of a listing.
#[derive(Drop)]
struct Steps {
    predecessor_rows: [u32; PAIRS],
    predecessor_candidates: [u32; PAIRS],
    rows: [u32; PAIRS],
    candidates: [u32; PAIRS],
    scores: [f64; PAIRS],
}

impl Steps {
    // The first n steps, one a line.
    fn print(&self, n: usize, out: &mut Output) {
        for k in 0..n.min(PAIRS) {
            out.bytes(b"step");
            out.number(self.predecessor_rows[k]);
            out.number(self.predecessor_candidates[k]);
            out.number(self.rows[k]);
            out.number(self.candidates[k]);
            out.float(self.scores[k]);
            out.end_line();
        }
    }

    // Whether the entries past the first n hold the fill.
    fn kept(&self, n: usize) -> bool {
        words_kept(&self.predecessor_rows, n)
            && words_kept(&self.predecessor_candidates, n)
            && words_kept(&self.rows, n)
            && words_kept(&self.candidates, n)
            && floats_kept(&self.scores, n)
    }
}

impl Session {
    fn list_steps(&mut self, row: u32, journal: &[u32]) {
        let mut steps = Steps {
            predecessor_rows: [FILL; PAIRS],
            predecessor_candidates: [FILL; PAIRS],
            rows: [FILL; PAIRS],
            candidates: [FILL; PAIRS],
            scores: [FILL_FLOAT; PAIRS],
        };
        let room = self.cuts.cut(Slice::Answer, PAIRS);
        let answer = list_steps(
            &self.network.lend(&self.cuts),
            self.settings,
            journal,
            row,
            &mut steps.predecessor_rows[..room],
            &mut steps.predecessor_candidates[..room],
            &mut steps.rows[..room],
            &mut steps.candidates[..room],
            &mut steps.scores[..room],
        );
        let n = answer.unwrap_or(0).min(PAIRS);
        match answer {
            Ok(n) => self.out.header(b"steps", n),
            Err(refusal) => self.out.refusal(b"steps", refusal),
        }
        steps.print(n, &mut self.out);
        self.kept = steps.kept(n);
    }

    pub fn steps(&mut self, words: &mut Words<'_>, journal: &[u32]) {
        let row = words.number();
        if !words.bad() {
            self.list_steps(row, journal);
            self.cuts.release_asked();
        }
    }
}
