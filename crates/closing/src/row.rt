// Reading a row back.
ghost use Rattle.std.specs.Prelude.{◌≡◌};
ghost use Rattle.closing.specs.Row.{row_buffers_of, reading, row_answer, filled};

use journal::buffer::{copy_fields, copy_floats};
use journal::call::end_before;
use journal::check::read_journal;
use journal::read::minute_of;
use journal::record::{FIRST_CELL, distance_count};
use refusals::Refusal;
use rows::record::{before_count, candidate_count};

// What is told of a row beside the buffers: its numbers of candidates and of predecessor candidates, and its minute.
#[derive(Clone, Copy)]
pub struct RowRead {
    pub candidates: usize,
    pub before: usize,
    pub minute: u32,
}

// A row, from 0: its minute, and its candidates' fields, parents and scores, and its distances into the buffers; or a refusal by check 7, by 13 where
// it does not stand, or by 15 where a list is longer than its buffers. Entries past a list keep what they held. The buffers are lent one by one, as the
// C interface has them.
pub fn read_row(
    journal: &[u32],
    row: u32,
    elements: &mut [u32],
    intrinsics: &mut [f64],
    near: &mut [u32],
    raw_logs: &mut [f64],
    parents: &mut [u32],
    scores: &mut [f64],
    distances: &mut [f64],
) -> Result<RowRead, Refusal>
    ensures { let b = row_buffers_of elements.old intrinsics.old near.old raw_logs.old parents.old scores.old distances.old in
        let l = reading journal.now row b in
        (result ≡ row_answer l)
        × (row_buffers_of elements.new intrinsics.new near.new raw_logs.new parents.new scores.new distances.new ≡ filled l b) }
{
    let survey = read_journal(journal)?;
    let number = row as usize;
    if survey.rows <= number {
        return Err(Refusal::Row);
    }
    let words = &journal[end_before(journal, survey.rows - number)..];
    let count = candidate_count(words);
    let before = before_count(words);
    let pairs = distance_count(count, before);
    let words_room = elements.len().min(near.len().min(parents.len()));
    let floats_room = intrinsics.len().min(raw_logs.len().min(scores.len()));
    if words_room.min(floats_room) < count {
        return Err(Refusal::Buffer);
    }
    if distances.len() < pairs {
        return Err(Refusal::Buffer);
    }
    copy_fields(words, count, 1, 1024, elements);
    copy_floats(words, FIRST_CELL + 1, 7, count, intrinsics);
    copy_fields(words, count, 1024, 2, near);
    copy_floats(words, FIRST_CELL + 3, 7, count, raw_logs);
    copy_fields(words, count, 2048, 32, parents);
    copy_floats(words, FIRST_CELL + 5, 7, count, scores);
    copy_floats(words, FIRST_CELL + 7 * count + 1, 2, pairs, distances);
    Ok(RowRead {
        candidates: count,
        before,
        minute: minute_of(words),
    })
}
