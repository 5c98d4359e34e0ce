// A row's record: its layout and its writer.
ghost use Rattle.std.specs.Prelude.{◌≡◌, List, ℕ, ◌+◌, ◌*◌, ◌<◌, ◌≤◌, length, get_or};
ghost use Rattle.std.proofs.lemmas.List.Edits.{sets};
ghost use Rattle.journal.specs.Lists.{flat};
ghost use Rattle.journal.specs.Row.{Cell, Row, no_cell};
ghost use Rattle.journal.specs.inner.Row.{cells_of, row_of, CellWritable, RowWritable, RowGiven};
ghost use Rattle.journal.specs.inner.Fix.{candidates_in, fix_in, Entries16};
ghost use Rattle.journal.specs.Record.{cell_words, distances_words, first_cell, record_of};
ghost use Rattle.journal.specs.Journal.{put};

use crate::fix::{Candidates, own_candidate};
use crate::float::put_float;
use crate::lengths::record_length;

// Document 01's candidate: an element number, an intrinsic, a near flag and a raw log.
#[derive(Clone, Copy)]
pub struct Candidate {
    pub element: u32,
    pub intrinsic: f64,
    pub near: u32,
    pub raw_log: f64,
}

// Where the first candidate's words start in a record, past its head.
pub const FIRST_CELL: usize = 3;

// How many distances c candidates have with p predecessor candidates.
pub fn distance_count(c: usize, p: usize) -> usize
    requires { (c < 32) × (p < 32) }
    ensures pairs { result ≡ c * p }
    ensures few_pairs { result ≤ 961 }
{
    c * p
}

// The seven words of a candidate, its parent and its score at `at`.
fn put_cell(words: &mut [u32], at: usize, c: Candidate, parent: u32, score: f64)
    requires cell_writable { let cell : Cell = record { candidate = c; parent = parent; score = score } in CellWritable cell }
    requires at_in_bounds { at + 7 ≤ length words.old }
    ensures { let cell : Cell = record { candidate = c; parent = parent; score = score } in
        words.new ≡ sets words.old at (cell_words cell) }
{
    words[at] = 0x2000_0000 + c.element + 1024 * c.near + 2048 * parent;
    put_float(words, at + 1, c.intrinsic);
    put_float(words, at + 3, c.raw_log);
    put_float(words, at + 5, score);
}

// The words of all candidates.
fn put_cells(words: &mut [u32], fix: Candidates, parents: &[u32; 16], scores: &[f64; 16])
    requires entries16 { Entries16 fix }
    requires by_index { let cells = cells_of (candidates_in fix) parents.now scores.now in
        (k : ℕ) → k < length cells → CellWritable (get_or cells k no_cell) }
    requires cells_in_bounds { let cells = cells_of (candidates_in fix) parents.now scores.now in
        first_cell + 7 * length cells ≤ length words.old }
    ensures { let cells = cells_of (candidates_in fix) parents.now scores.now in
        words.new ≡ sets words.old first_cell (flat cell_words cells) }
{
    // by index: candidates, parents and scores side by side
    for k in 0..fix.count {
        let c = own_candidate(fix, k);
        put_cell(words, FIRST_CELL + 7 * k, c, parents[k], scores[k]);
    }
}

// The number of distances at `at`, and their words after it.
fn put_distances(words: &mut [u32], at: usize, distances: &[f64])
    requires distances_in_bounds { at + 1 + 2 * length distances.now ≤ length words.old }
    requires distances_len_bound { length distances.now ≤ 256 }
    ensures { words.new ≡ sets words.old at (distances_words distances.now) }
{
    words[at] = 0x3000_0000 + distances.len() as u32;
    for (k, distance) in distances.iter().enumerate() {
        put_float(words, at + 1 + 2 * k, *distance);
    }
}

// The record of a row whose predecessor's starts at `place`, from the first word on: its length.
fn put_row(
    words: &mut [u32],
    place: usize,
    fix: Candidates,
    distances: &[f64],
    parents: &[u32; 16],
    scores: &[f64; 16],
    p: usize,
) -> usize
    requires row { RowGiven fix distances.now parents.now scores.now p }
    requires row_in_bounds { let row = row_of (fix_in fix distances.now) parents.now scores.now p in
        (length (record_of place row) ≤ length words.old) × (place < 268435456) }
    ensures length_told { let row = row_of (fix_in fix distances.now) parents.now scores.now p in
        result ≡ length (record_of place row) }
    ensures record_put { let row = row_of (fix_in fix distances.now) parents.now scores.now p in
        words.new ≡ sets words.old 0 (record_of place row) }
{
    let n = fix.count;
    let length = record_length(n, p);
    words[0] = 0x1000_0000 + n as u32 + 32 * p as u32;
    words[1] = 0x7000_0000 + place as u32;
    words[2] = 0x8000_0000 + fix.minute;
    put_cells(words, fix, parents, scores);
    put_distances(words, FIRST_CELL + 7 * n, distances);
    words[length - 1] = 0x4000_0000 + length as u32;
    length
}

// The record of a row whose predecessor's starts at `place` into the words past the used ones, and then word 0.
pub fn add_row(
    journal: &mut [u32],
    used: usize,
    place: usize,
    fix: Candidates,
    distances: &[f64],
    parents: &[u32; 16],
    scores: &[f64; 16],
    p: usize,
)
    requires entries16 { let row = row_of (fix_in fix distances.now) parents.now scores.now p in
        Entries16 fix × RowWritable row }
    requires row_in_bounds { let row = row_of (fix_in fix distances.now) parents.now scores.now p in
        (used + length (record_of place row) ≤ length journal.old) × (used + length (record_of place row) < 268435456) }
    requires place_le_used { place ≤ used }
    ensures { let row = row_of (fix_in fix distances.now) parents.now scores.now p in
        journal.new ≡ put journal.old used (record_of place row) }
{
    let n = put_row(
        &mut journal[used..],
        place,
        fix,
        distances,
        parents,
        scores,
        p,
    );
    let end = used + n;
    journal[0] = 0x5000_0000 + end as u32;
}
