// Closing: the best path through the standing rows.
ghost use Rattle.std.specs.Prelude.{◌≡◌, min, length};
ghost use Rattle.decoder.specs.Call.{closing_on};
ghost use Rattle.closing.specs.Close.{pair_row, pair_candidate, close_answer, close_stored};

use crate::start::best_start;
use crate::walk::{path_length, write_path};
use journal::check::read_journal;
use refusals::Refusal;

// The best path: its score, and how many pairs of a row and a candidate it has.
#[derive(Clone, Copy)]
pub struct BestPath {
    pub score: f64,
    pub pairs: usize,
}

// The best path: its score, and its pairs of a row and a candidate into the buffers, in row order; none where no row scores; or a refusal by check 7,
// or by 15 where a buffer has fewer entries than there are pairs. Entries past the pairs keep what they held.
pub fn close(
    journal: &[u32],
    rows: &mut [u32],
    candidates: &mut [u32],
) -> Result<Option<BestPath>, Refusal>
    ensures value { result ≡ close_answer (closing_on journal.now (min (length rows.old) (length candidates.old))) }
    ensures rows_after { rows.new ≡ close_stored pair_row (closing_on journal.now (min (length rows.old) (length candidates.old))) rows.old }
    ensures candidates_after { candidates.new ≡ close_stored pair_candidate (closing_on journal.now (min (length rows.old) (length candidates.old))) candidates.old }
{
    let survey = read_journal(journal)?;
    let Some(last) = survey.latest else {
        return Ok(None);
    };
    let start = best_start(journal, survey, last);
    let pairs = path_length(journal, start.back);
    if rows.len().min(candidates.len()) < pairs {
        return Err(Refusal::Buffer);
    }
    write_path(journal, start.back, pairs, rows, candidates);
    let path = BestPath {
        score: start.score,
        pairs,
    };
    Ok(Some(path))
}
