// Building the list of segments.
use crate::list::{FILL_SEGMENT, List, SEGMENTS, print_segments, same_segment};
use answers::session::Session;
use segments::build::build_path_from_viterbi;
use segments::segment::Segment;
use text::keyword::Slice;

// Whether every segment holds the fill.
fn is_filled(segments: &[Segment]) -> bool {
    for segment in segments {
        if !same_segment(*segment, FILL_SEGMENT) {
            return false;
        }
    }
    true
}

impl List {
    // The list is built of the journal's best path. Never inlined: other lines do not need so much stack.
    #[inline(never)]
    pub fn build(&mut self, session: &mut Session, journal: &[u32]) {
        let mut built = [FILL_SEGMENT; SEGMENTS];
        let room = session.cuts.cut(Slice::Answer, SEGMENTS);
        let net = session.network.lend(&session.cuts);
        let answer = build_path_from_viterbi(&net, journal, &mut built[..room]);
        session.cuts.release_asked();
        let mut n = 0;
        match answer {
            Ok(count) => {
                n = count;
                session.out.header(b"segments", n);
                print_segments(&mut session.out, &built, n);
                self.segments = built;
                self.len = n;
            }
            Err(refusal) => session.out.refusal(b"segments", refusal),
        }
        session.kept = is_filled(&built[n.min(SEGMENTS)..]);
    }
}
