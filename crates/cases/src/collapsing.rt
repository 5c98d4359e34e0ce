// Collapsing a list of segments: that of the text, or the one that is held.
use crate::list::{List, SEGMENTS, Segments, print_segments, same_segment};
use answers::fill::{FILL, words_kept};
use answers::print::Output;
use answers::session::Session;
use answers::words::Words;
use segments::collapse::{Collapsed, remove_oscillations};
use segments::segment::{Segment, zero_segment};
use text::keyword::Slice;
use text::list::{first, read_segments};

// The words of a decision: element, span, how many were removed, and their elements.
const DECISION: usize = 6;

// The words of as many decisions as there are segments.
const DECISIONS: usize = 24576;

// The text's next n segments, with zeros behind them.
fn take_list(words: &mut Words<'_>, n: u32) -> List {
    let mut elements = [0; SEGMENTS];
    let mut starts = [0.0; SEGMENTS];
    let mut ends = [0.0; SEGMENTS];
    let mut firsts = [0; SEGMENTS];
    let mut lasts = [0; SEGMENTS];
    words.cursor = read_segments(
        words.text,
        words.cursor,
        n,
        &mut elements,
        &mut starts,
        &mut ends,
        &mut firsts,
        &mut lasts,
    );
    let mut list = List::empty();
    list.len = SEGMENTS.min(n as usize);
    for k in 0..list.len {
        list.segments[k] = Segment {
            element: elements[k],
            start_intrinsic: starts[k],
            end_intrinsic: ends[k],
            first_row: firsts[k],
            last_row: lasts[k],
        };
    }
    list
}

// Whether the entries past the segments that are left are zero, or hold what they held where they were not lent: n were.
fn is_kept(before: &Segments, after: &Segments, n: usize, left: usize) -> bool {
    for k in left..SEGMENTS {
        let kept = if k < n { zero_segment() } else { before[k] };
        if !same_segment(after[k], kept) {
            return false;
        }
    }
    true
}

// Each decision's element, span, how many were removed, and their elements.
fn print_decisions(out: &mut Output, words: &[u32]) {
    for decision in words.chunks_exact(DECISION) {
        out.bytes(b"decision");
        out.number(decision[0]);
        out.number(decision[1]);
        out.number(decision[2]);
        for element in first(&decision[3..], decision[2] as usize) {
            out.number(*element);
        }
        out.end_line();
    }
}

// How many segments are left, and how many decisions were made.
fn print_counts(out: &mut Output, collapsed: Collapsed) {
    out.bytes(b"collapse");
    out.count(collapsed.segments);
    out.count(collapsed.decisions);
    out.end_line();
}

impl List {
    // The list is collapsed, with so many words for decisions; what is left of it is held.
    fn collapse_given(&mut self, given: List, room: usize, session: &mut Session) {
        let n = given.len.min(SEGMENTS);
        let mut left = given.segments;
        let mut words = [FILL; DECISIONS];
        let answer = remove_oscillations(&mut left[..n], &mut words[..room.min(DECISIONS)]);
        let out = &mut session.out;
        match answer {
            Ok(collapsed) => {
                let told = DECISION * collapsed.decisions.min(SEGMENTS);
                print_counts(out, collapsed);
                print_segments(out, &left, collapsed.segments);
                print_decisions(out, first(&words, told));
                session.kept = is_kept(&given.segments, &left, n, collapsed.segments)
                    && words_kept(&words, told);
                self.segments = left;
                self.len = collapsed.segments;
            }
            Err(refusal) => {
                out.refusal(b"collapse", refusal);
                session.kept = is_kept(&given.segments, &left, 0, 0) && words_kept(&words, 0);
            }
        }
    }

    // From behind the word `collapse`: the list that is held, or one of the text. Never inlined: other lines do not need so much stack.
    #[inline(never)]
    pub fn collapse(&mut self, words: &mut Words<'_>, session: &mut Session) {
        let room = session.cuts.cut(Slice::Decisions, DECISIONS);
        session.cuts.release(Slice::Decisions, Slice::Decisions);
        let given = if words.has(b"built") {
            *self
        } else {
            let n = words.count(4096);
            take_list(words, n)
        };
        if !words.bad() {
            self.collapse_given(given, room, session);
        }
    }
}
