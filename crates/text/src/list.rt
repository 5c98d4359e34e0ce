// The lists of the case language, read into lent slices entry by entry. Entries past a slice's end are read and not stored.
ghost use Rattle.std.specs.Prelude.{◌≡◌, ◌<◌, take};
ghost use Rattle.text.specs.inner.Lists.{entry_stored, number_into, float_into, elements_read_of, element, read_elements, relations_read_of, relation, read_relations, windows_read_of, window, read_windows, candidates_read_of, candidate, read_candidates, read_distances, segments_read_of, segment, read_segments};

use crate::cursor::{Cursor, Taken, take_float, take_number};

// The first n entries of a slice; all of them where there are fewer.
pub fn first<'a, T>(xs: &'a [T], n: usize) -> &'a [T]
    ensures { result.now ≡ take n xs.now }
{
    &xs[..n.min(xs.len())]
}

// What a word was read as, into entry i.
fn entered<T: Copy>(taken: Taken<T>, i: usize, xs: &mut [T]) -> Cursor
    ensures value { result ≡ (entry_stored i taken.cursor taken.value xs.old).0 }
    ensures entries_after { xs.new ≡ (entry_stored i taken.cursor taken.value xs.old).1 }
{
    let cursor = taken.cursor;
    if cursor.bad || xs.len() <= i {
        return cursor;
    }
    xs[i] = taken.value;
    cursor
}

// The next word as a number, into entry i.
#[tactic(auto, unfolding(crate::specs::inner::Lists::number_into))]
fn number_into(text: &[u8], c: Cursor, i: usize, numbers: &mut [u32]) -> Cursor
    ensures value { result ≡ (number_into text.now i c numbers.old).0 }
    ensures numbers_after { numbers.new ≡ (number_into text.now i c numbers.old).1 }
{
    entered(take_number(text, c), i, numbers)
}

// The next word as a float, into entry i.
#[tactic(auto, unfolding(crate::specs::inner::Lists::float_into))]
fn float_into(text: &[u8], c: Cursor, i: usize, floats: &mut [f64]) -> Cursor
    ensures value { result ≡ (float_into text.now i c floats.old).0 }
    ensures floats_after { floats.new ≡ (float_into text.now i c floats.old).1 }
{
    entered(take_float(text, c), i, floats)
}

// Length, headings and flag of element k.
fn read_element(
    text: &[u8],
    c: Cursor,
    k: usize,
    lengths: &mut [f64],
    headings: &mut [f64],
    flags: &mut [u32],
) -> Cursor
    requires { k < 4294967296 }
    ensures { let s = elements_read_of c lengths.old headings.old flags.old in
        elements_read_of result lengths.new headings.new flags.new ≡ element text.now k s }
{
    let c1 = float_into(text, c, k, lengths);
    let c2 = float_into(text, c1, 4 * k, headings);
    let c3 = float_into(text, c2, 4 * k + 1, headings);
    let c4 = float_into(text, c3, 4 * k + 2, headings);
    let c5 = float_into(text, c4, 4 * k + 3, headings);
    number_into(text, c5, k, flags)
}

// n elements.
pub fn read_elements(
    text: &[u8],
    c: Cursor,
    n: u32,
    lengths: &mut [f64],
    headings: &mut [f64],
    flags: &mut [u32],
) -> Cursor
    ensures { let s = elements_read_of c lengths.old headings.old flags.old in
        elements_read_of result lengths.new headings.new flags.new ≡ read_elements text.now n s }
{
    let mut cursor = c;
    for k in 0..n as usize {
        cursor = read_element(text, cursor, k, lengths, headings, flags);
    }
    cursor
}

// The fields of relation k.
fn read_relation(
    text: &[u8],
    c: Cursor,
    k: usize,
    from: &mut [u32],
    to: &mut [u32],
    from_side: &mut [u32],
    to_side: &mut [u32],
    forward: &mut [u32],
    backward: &mut [u32],
) -> Cursor
    ensures { let s = relations_read_of c from.old to.old from_side.old to_side.old forward.old backward.old in
        relations_read_of result from.new to.new from_side.new to_side.new forward.new backward.new ≡ relation text.now k s }
{
    let c1 = number_into(text, c, k, from);
    let c2 = number_into(text, c1, k, to);
    let c3 = number_into(text, c2, k, from_side);
    let c4 = number_into(text, c3, k, to_side);
    let c5 = number_into(text, c4, k, forward);
    number_into(text, c5, k, backward)
}

// n relations.
pub fn read_relations(
    text: &[u8],
    c: Cursor,
    n: u32,
    from: &mut [u32],
    to: &mut [u32],
    from_side: &mut [u32],
    to_side: &mut [u32],
    forward: &mut [u32],
    backward: &mut [u32],
) -> Cursor
    ensures { let s = relations_read_of c from.old to.old from_side.old to_side.old forward.old backward.old in
        relations_read_of result from.new to.new from_side.new to_side.new forward.new backward.new ≡ read_relations text.now n s }
{
    let mut cursor = c;
    for k in 0..n as usize {
        cursor = read_relation(
            text, cursor, k, from, to, from_side, to_side, forward, backward,
        );
    }
    cursor
}

// The first and the last minute of window k.
fn read_window(text: &[u8], c: Cursor, k: usize, firsts: &mut [u32], lasts: &mut [u32]) -> Cursor
    ensures { let s = windows_read_of c firsts.old lasts.old in
        windows_read_of result firsts.new lasts.new ≡ window text.now k s }
{
    let c1 = number_into(text, c, k, firsts);
    number_into(text, c1, k, lasts)
}

// n windows of a relation.
pub fn read_windows(text: &[u8], c: Cursor, n: u32, firsts: &mut [u32], lasts: &mut [u32]) -> Cursor
    ensures { let s = windows_read_of c firsts.old lasts.old in
        windows_read_of result firsts.new lasts.new ≡ read_windows text.now n s }
{
    let mut cursor = c;
    for k in 0..n as usize {
        cursor = read_window(text, cursor, k, firsts, lasts);
    }
    cursor
}

// The fields of candidate k.
fn read_candidate(
    text: &[u8],
    c: Cursor,
    k: usize,
    elements: &mut [u32],
    intrinsics: &mut [f64],
    near: &mut [u32],
    raw_logs: &mut [f64],
) -> Cursor
    ensures { let s = candidates_read_of c elements.old intrinsics.old near.old raw_logs.old in
        candidates_read_of result elements.new intrinsics.new near.new raw_logs.new ≡ candidate text.now k s }
{
    let c1 = number_into(text, c, k, elements);
    let c2 = float_into(text, c1, k, intrinsics);
    let c3 = number_into(text, c2, k, near);
    float_into(text, c3, k, raw_logs)
}

// n candidates.
pub fn read_candidates(
    text: &[u8],
    c: Cursor,
    n: u32,
    elements: &mut [u32],
    intrinsics: &mut [f64],
    near: &mut [u32],
    raw_logs: &mut [f64],
) -> Cursor
    ensures { let s = candidates_read_of c elements.old intrinsics.old near.old raw_logs.old in
        candidates_read_of result elements.new intrinsics.new near.new raw_logs.new ≡ read_candidates text.now n s }
{
    let mut cursor = c;
    for k in 0..n as usize {
        cursor = read_candidate(text, cursor, k, elements, intrinsics, near, raw_logs);
    }
    cursor
}

// n distances.
pub fn read_distances(text: &[u8], c: Cursor, n: u32, distances: &mut [f64]) -> Cursor
    ensures value { result ≡ (read_distances text.now n (c, distances.old)).0 }
    ensures distances_after { distances.new ≡ (read_distances text.now n (c, distances.old)).1 }
{
    let mut cursor = c;
    for k in 0..n as usize {
        cursor = float_into(text, cursor, k, distances);
    }
    cursor
}

// The fields of segment k.
fn read_segment(
    text: &[u8],
    c: Cursor,
    k: usize,
    elements: &mut [u32],
    starts: &mut [f64],
    ends: &mut [f64],
    firsts: &mut [u32],
    lasts: &mut [u32],
) -> Cursor
    ensures { let s = segments_read_of c elements.old starts.old ends.old firsts.old lasts.old in
        segments_read_of result elements.new starts.new ends.new firsts.new lasts.new ≡ segment text.now k s }
{
    let c1 = number_into(text, c, k, elements);
    let c2 = float_into(text, c1, k, starts);
    let c3 = float_into(text, c2, k, ends);
    let c4 = number_into(text, c3, k, firsts);
    number_into(text, c4, k, lasts)
}

// n segments.
pub fn read_segments(
    text: &[u8],
    c: Cursor,
    n: u32,
    elements: &mut [u32],
    starts: &mut [f64],
    ends: &mut [f64],
    firsts: &mut [u32],
    lasts: &mut [u32],
) -> Cursor
    ensures { let s = segments_read_of c elements.old starts.old ends.old firsts.old lasts.old in
        segments_read_of result elements.new starts.new ends.new firsts.new lasts.new ≡ read_segments text.now n s }
{
    let mut cursor = c;
    for k in 0..n as usize {
        cursor = read_segment(text, cursor, k, elements, starts, ends, firsts, lasts);
    }
    cursor
}
