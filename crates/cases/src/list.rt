// The list of segments that is held.
use answers::fill::{FILL, FILL_FLOAT};
use answers::print::Output;
use journal::float::bits_of;
use segments::segment::{Segment, zero_segment};
use text::list::first;

// The most segments of a list.
pub const SEGMENTS: usize = 4096;

pub type Segments = [Segment; SEGMENTS];

// A segment that holds the fill in every field.
pub const FILL_SEGMENT: Segment = Segment {
    element: FILL,
    start_intrinsic: FILL_FLOAT,
    end_intrinsic: FILL_FLOAT,
    first_row: FILL,
    last_row: FILL,
};

// Segments, of which the first ones are the list.
#[derive(Clone, Copy)]
pub struct List {
    pub segments: Segments,
    pub len: usize,
}

impl List {
    pub fn empty() -> List {
        List {
            segments: [zero_segment(); SEGMENTS],
            len: 0,
        }
    }
}

fn same_float(x: f64, y: f64) -> bool {
    bits_of(x) == bits_of(y)
}

// Whether two segments are the same, the floats by their bits.
pub fn same_segment(a: Segment, b: Segment) -> bool {
    a.element == b.element
        && same_float(a.start_intrinsic, b.start_intrinsic)
        && same_float(a.end_intrinsic, b.end_intrinsic)
        && a.first_row == b.first_row
        && a.last_row == b.last_row
}

// The first n segments, one a line.
pub fn print_segments(out: &mut Output, segments: &Segments, n: usize) {
    for segment in first(segments, n) {
        out.bytes(b"segment");
        out.number(segment.element);
        out.float(segment.start_intrinsic);
        out.float(segment.end_intrinsic);
        out.number(segment.first_row);
        out.number(segment.last_row);
        out.end_line();
    }
}
