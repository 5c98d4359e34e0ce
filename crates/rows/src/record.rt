// What is read from a row's record at the head of some words.
ghost use Rattle.std.specs.Prelude.{◌≡◌, ◌%◌, ◌<◌, ◌≤◌, length, get_or};
ghost use Rattle.journal.specs.Row.{Row, row_size, cell_of, fix_of};
ghost use Rattle.journal.specs.Record.{first_cell, read_row};
ghost use Rattle.journal.specs.inner.Fix.{candidates_in, Entries16};
ghost use Rattle.rows.specs.inner.Scoring.{CandidateStands, RecordStands};

use crate::previous::candidate_of;
use journal::fix::{Candidates, no_candidates};
use journal::read::minute_of;
use journal::record::FIRST_CELL;

// How many candidates the row has.
pub fn candidate_count(words: &[u32]) -> usize
    requires { 0 < length words.now }
    ensures { result ≡ row_size (read_row words.now) }
{
    (words[0] % 32) as usize
}

// How many predecessor candidates the row counts.
pub fn before_count(words: &[u32]) -> usize
    requires { 0 < length words.now }
    ensures { result ≡ (read_row words.now).before }
{
    (words[0] / 32 % 32) as usize
}

// Where the predecessor's record starts, counted from the journal's word 0, or 0 for none.
pub fn predecessor_place(words: &[u32]) -> usize
    requires { first_cell ≤ length words.now }
    ensures { result ≡ get_or words.now 1 0 % 268435456 }
{
    (words[1] % 268435456) as usize
}

// The parent of candidate i.
pub fn parent_of(words: &[u32], i: usize) -> u32
    requires { CandidateStands words.now i }
    ensures { result ≡ (cell_of (read_row words.now) i).parent }
{
    words[FIRST_CELL + 7 * i] / 2048 % 32
}

// The row's minute and candidates, by value.
pub fn candidates_at(words: &[u32], count: usize) -> Candidates
    requires { RecordStands words.now count × (count ≤ 16) }
    ensures { let r = read_row words.now in
        Entries16 result × (result.minute ≡ r.minute) × (candidates_in result ≡ (fix_of r).candidates) }
{
    let mut list = no_candidates();
    for i in 0..count {
        list[i] = candidate_of(words, i);
    }
    Candidates {
        minute: minute_of(words),
        list,
        count,
    }
}
