// The walk back along the parents, over the records by the lengths at their ends.
ghost use Rattle.std.specs.Prelude.{◌≡◌, ◌+◌, ◌<◌, ◌≤◌, length};
ghost use Rattle.closing.specs.inner.Walk.{Reached, RecordLeft, first_rows, path_from, over, pair_stored, column};
ghost use Rattle.closing.specs.Close.{pair_row, pair_candidate};

use rows::previous::NO_PARENT;
use rows::record::{parent_of, predecessor_place};

// Where it stands: so many rows are left, whose records end at a place; where the record of the latest of them that scores starts, and its candidate,
// 31 for none; and the number of pairs found so far.
#[derive(Clone, Copy)]
pub struct Back {
    pub rows: usize,
    pub end: usize,
    pub latest: usize,
    pub candidate: u32,
    pub pairs: usize,
}

// Over one record: a row that scores gives a pair, and names the place of the next one; the candidate there is its candidate's parent.
#[tactic(auto, using(crate::proofs::Steps::step_room))]
pub fn step_back(journal: &[u32], b: Back) -> Back
    requires { RecordLeft journal.now b }
    ensures { result ≡ over (first_rows journal.now b.rows) b }
{
    let length = (journal[b.end - 1] % 268435456) as usize;
    let at = b.end - length;
    let words = &journal[at..];
    if at == b.latest {
        return Back {
            rows: b.rows - 1,
            end: at,
            latest: predecessor_place(words),
            candidate: parent_of(words, b.candidate as usize),
            pairs: b.pairs + 1,
        };
    }
    Back {
        rows: b.rows - 1,
        end: at,
        ..b
    }
}

// How many pairs there are, with those found so far.
pub fn path_length(journal: &[u32], start: Back) -> usize
    requires { Reached journal.now start }
    ensures { result ≡ start.pairs + length (path_from journal.now start) }
{
    let mut b = start;
    while 0 < b.rows && b.candidate != NO_PARENT {
        b = step_back(journal, b);
    }
    b.pairs
}

// One step, its pair stored in the buffers for n pairs.
fn store_back(journal: &[u32], b: Back, n: usize, rows: &mut [u32], candidates: &mut [u32]) -> Back
    requires record_left { RecordLeft journal.now b }
    requires pairs_lt_n { (b.pairs < n) × (n ≤ length rows.old) × (n ≤ length candidates.old) }
    ensures value { result ≡ over (first_rows journal.now b.rows) b }
    ensures rows_after { rows.new ≡ pair_stored b result n result.rows rows.old }
    ensures candidates_after { candidates.new ≡ pair_stored b result n b.candidate candidates.old }
{
    let next = step_back(journal, b);
    if b.pairs < next.pairs {
        let i = n - next.pairs;
        rows[i] = next.rows as u32;
        candidates[i] = b.candidate;
    }
    next
}

// The n pairs are stored in the first n entries, the first one found last.
pub fn write_path(journal: &[u32], start: Back, n: usize, rows: &mut [u32], candidates: &mut [u32])
    requires reached { Reached journal.now start }
    requires pairs_value { (start.pairs ≡ 0) × (n ≡ length (path_from journal.now start)) }
    requires n_in_bounds { (n ≤ length rows.old) × (n ≤ length candidates.old) }
    ensures rows_after { rows.new ≡ column pair_row (path_from journal.now start) n rows.old }
    ensures candidates_after { candidates.new ≡ column pair_candidate (path_from journal.now start) n candidates.old }
{
    let mut b = start;
    while b.pairs < n {
        b = store_back(journal, b, n, rows, candidates);
    }
}
