// The row reader: it sees one record from its first word.
ghost use Rattle.std.specs.Prelude.{◌≡◌, ◌+◌, ◌*◌, ◌<◌, ◌≤◌, length, drop};
ghost use Rattle.std.specs.Float.Ieee.Scale.{finite};
ghost use Rattle.lists.specs.Loops.{any_below, every_below};
ghost use Rattle.journal.specs.Row.{before_of};
ghost use Rattle.journal.specs.Ranges.{distance_ok, cell_ok};
ghost use Rattle.journal.specs.Record.{first_cell, cell_words, float_words, float_at, read_cell, read_distance, read_row, record_length};
ghost use Rattle.journal.specs.inner.Check.{well_read, minute_reads, body_reads, place_of, Followed, record_at};

use crate::check::{Survey, candidates_of, place_of};
use crate::float::float_at;
use crate::halves::{finite_reads, greatest_half, intrinsic_reads, raw_log_reads, score_reads};
use crate::lengths::record_length;
use crate::range::{distance_ok, parent_ok};
use crate::record::{Candidate, FIRST_CELL, distance_count};

// A record's length, its number of candidates, whether its row scores, and its minute.
#[derive(Clone, Copy)]
pub struct Record {
    pub length: usize,
    pub candidates: usize,
    pub scores: bool,
    pub minute: u32,
}

// The minute of the record that starts with the first of the words.
pub fn minute_of(words: &[u32]) -> u32
    requires { first_cell ≤ length words.now }
    ensures { result ≡ (read_row words.now).minute }
{
    words[2] % 268435456
}

// Whether a word is of kind 8, not before the minute `since`.
fn minute_reads(word: u32, since: u32) -> bool
    ensures { result ≡ minute_reads since word }
{
    word / 268435456 == 8 && since <= word % 268435456
}

// The candidate whose words start at `at`.
pub fn candidate_at(words: &[u32], at: usize) -> Candidate
    requires { at + 7 ≤ length words.now }
    ensures { result ≡ (read_cell (drop at words.now)).candidate }
{
    let w = words[at];
    Candidate {
        element: w % 1024,
        intrinsic: float_at(words, at + 1),
        near: w / 1024 % 2,
        raw_log: float_at(words, at + 3),
    }
}

// Whether the words at `at` are a candidate's in this row, with p predecessor candidates.
fn cell_reads(words: &[u32], at: usize, p: u32, row: u16) -> bool
    requires { at + 7 ≤ length words.now }
    ensures { result ≡ well_read cell_words read_cell (cell_ok p row) (drop at words.now) }
{
    let w = words[at];
    w / 65536 == 8192
        && intrinsic_reads(words, at + 1)
        && raw_log_reads(words, at + 3)
        && parent_ok(w / 2048 % 32, p)
        && score_reads(words, at + 5, row)
}

// Whether those of c candidates are.
fn cells_read(words: &[u32], c: usize, p: u32, row: u16) -> bool
    requires { first_cell + 7 * c ≤ length words.now }
    ensures { result ≡ every_below c (λ k. well_read cell_words read_cell (cell_ok p row) (drop (first_cell + 7 * k) words.now)) }
{
    (0..c).all(|k| cell_reads(words, FIRST_CELL + 7 * k, p, row))
}

// Whether the words at `at` are a distance's.
fn distance_reads(words: &[u32], at: usize) -> bool
    requires { at + 1 < length words.now }
    ensures { result ≡ well_read float_words read_distance distance_ok (drop at words.now) }
{
    distance_ok(float_at(words, at))
}

// Whether those of n distances from `at` on are, one after the other.
fn each_distance_reads(words: &[u32], at: usize, n: usize) -> bool
    requires { at + 2 * n ≤ length words.now }
    ensures { result ≡ every_below n (λ k. well_read float_words read_distance distance_ok (drop (at + 2 * k) words.now)) }
{
    (0..n).all(|k| distance_reads(words, at + 2 * k))
}

// The same: distances below 2^24 m are in range, which the greatest of their high halves tells of all of them.
fn distances_read(words: &[u32], at: usize, n: usize) -> bool
    requires { at + 2 * n ≤ length words.now }
    ensures { result ≡ every_below n (λ k. well_read float_words read_distance distance_ok (drop (at + 2 * k) words.now)) }
{
    let small = greatest_half(words, at, n) < 0x4170_0000;
    small || each_distance_reads(words, at, n)
}

// Whether one of the scores of c candidates is finite.
fn scores_read(words: &[u32], c: usize) -> bool
    requires { first_cell + 7 * c ≤ length words.now }
    ensures { result ≡ any_below c (λ k. finite (float_at words.now (first_cell + 7 * k + 5))) }
{
    (0..c).any(|k| finite_reads(words, FIRST_CELL + 7 * k + 5))
}

// How many predecessor candidates a row of c candidates counts, where its predecessor has q.
pub fn before_of(q: usize, c: usize) -> usize
    ensures { result ≡ before_of q c }
{
    if c == 0 { 0 } else { q }
}

// Whether what follows the head word of c candidates with p predecessor candidates is that of the record of the row after those surveyed, which
// ends at `end`: it names the predecessor's place, and its minute is not before theirs.
#[tactic(auto, unfolding(crate::specs::Record::record_length, crate::specs::inner::Check::body_reads))]
fn body_reads(words: &[u32], survey: Survey, c: usize, p: usize, end: usize) -> bool
    requires c_bound { (c < 32) × (p < 32) }
    requires after { Followed survey }
    requires end_value { (end ≡ record_length c p) × (end ≤ length words.now) }
    ensures { result ≡ body_reads (place_of survey.latest) survey.minute c p survey.rows words.now }
{
    let n = distance_count(c, p);
    let at = FIRST_CELL + 7 * c;
    words[1] == 0x7000_0000 + place_of(survey.latest) as u32
        && minute_reads(words[2], survey.minute)
        && cells_read(words, c, p as u32, survey.rows as u16)
        && words[at] == 0x3000_0000 + n as u32
        && distances_read(words, at + 1, n)
        && words[end - 1] == 0x4000_0000 + end as u32
}

// The record at the head of the words, as that of the row after those surveyed.
pub fn read_row(words: &[u32], survey: Survey) -> Option<Record>
    requires { Followed survey }
    ensures { result ≡ record_at survey words.now }
{
    if words.len() == 0 {
        return None;
    }
    let head = words[0];
    let c = (head % 32) as usize;
    let p = (head / 32 % 32) as usize;
    if head / 1024 != 262144 || 16 < c || p != before_of(candidates_of(survey.latest), c) {
        return None;
    }
    let length = record_length(c, p);
    if words.len() < length || !body_reads(words, survey, c, p, length) {
        return None;
    }
    Some(Record {
        length,
        candidates: c,
        scores: scores_read(words, c),
        minute: minute_of(words),
    })
}
