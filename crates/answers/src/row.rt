// Reading a row back.
use crate::drive::{CANDIDATES, PAIRS};
use crate::fill::{FILL, FILL_FLOAT, floats_kept, words_kept};
use crate::print::Output;
use crate::session::Session;
use crate::words::Words;
use closing::row::{RowRead, read_row};
use journal::record::distance_count;
use text::keyword::Slice;
use text::list::first;

// The buffers of a row.
#[derive(Drop)]
struct Row {
    elements: [u32; CANDIDATES],
    intrinsics: [f64; CANDIDATES],
    near: [u32; CANDIDATES],
    raw_logs: [f64; CANDIDATES],
    parents: [u32; CANDIDATES],
    scores: [f64; CANDIDATES],
    distances: [f64; PAIRS],
}

impl Row {
    // The first n candidates and m distances, one a line.
    fn print(&self, n: usize, m: usize, out: &mut Output) {
        for k in 0..n.min(CANDIDATES) {
            out.bytes(b"candidate");
            out.number(self.elements[k]);
            out.float(self.intrinsics[k]);
            out.number(self.near[k]);
            out.float(self.raw_logs[k]);
            out.number(self.parents[k]);
            out.float(self.scores[k]);
            out.end_line();
        }
        for distance in first(&self.distances, m) {
            out.bytes(b"distance");
            out.float(*distance);
            out.end_line();
        }
    }

    // Whether the entries past the first n candidates and m distances hold the fill.
    fn kept(&self, n: usize, m: usize) -> bool {
        words_kept(&self.elements, n)
            && words_kept(&self.near, n)
            && words_kept(&self.parents, n)
            && floats_kept(&self.intrinsics, n)
            && floats_kept(&self.raw_logs, n)
            && floats_kept(&self.scores, n)
            && floats_kept(&self.distances, m)
    }
}

fn print_head(out: &mut Output, row: RowRead) {
    out.bytes(b"row");
    out.count(row.candidates);
    out.count(row.before);
    out.number(row.minute);
    out.end_line();
}

impl Session {
    fn read_row(&mut self, row: u32, journal: &[u32]) {
        let mut lists = Row {
            elements: [FILL; CANDIDATES],
            intrinsics: [FILL_FLOAT; CANDIDATES],
            near: [FILL; CANDIDATES],
            raw_logs: [FILL_FLOAT; CANDIDATES],
            parents: [FILL; CANDIDATES],
            scores: [FILL_FLOAT; CANDIDATES],
            distances: [FILL_FLOAT; PAIRS],
        };
        let room = self.cuts.cut(Slice::Answer, CANDIDATES);
        let pairs = self.cuts.cut(Slice::Distances, PAIRS);
        let answer = read_row(
            journal,
            row,
            &mut lists.elements[..room],
            &mut lists.intrinsics[..room],
            &mut lists.near[..room],
            &mut lists.raw_logs[..room],
            &mut lists.parents[..room],
            &mut lists.scores[..room],
            &mut lists.distances[..pairs],
        );
        let mut n = 0;
        let mut m = 0;
        match answer {
            Ok(read) => {
                n = read.candidates.min(CANDIDATES);
                m = distance_count(n, read.before.min(CANDIDATES));
                print_head(&mut self.out, read);
            }
            Err(refusal) => self.out.refusal(b"row", refusal),
        }
        lists.print(n, m, &mut self.out);
        self.kept = lists.kept(n, m);
    }

    pub fn row(&mut self, words: &mut Words<'_>, journal: &[u32]) {
        let row = words.number();
        if !words.bad() {
            self.read_row(row, journal);
            self.cuts.release(Slice::Distances, Slice::Answer);
        }
    }
}
