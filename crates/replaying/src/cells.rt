// The parents and scores of a row's record, at the head of some words, compared with others in bits.
ghost use Rattle.std.specs.Prelude.{◌≡◌, ◌≤◌, get_or};
ghost use Rattle.std.specs.Float.{nan};
ghost use Rattle.lists.specs.Loops.{every_below};
ghost use Rattle.journal.specs.Row.{cell_of};
ghost use Rattle.journal.specs.Record.{read_row};
ghost use Rattle.rows.specs.inner.Scoring.{CandidateStands, RecordStands};
ghost use Rattle.replaying.specs.inner.Comparing.{same_cell};

use journal::float::bits_of;
use rows::previous::score_of;
use rows::record::parent_of;

// Whether candidate i has this parent and this score.
#[tactic(auto, unfolding(crate::specs::inner::Comparing::same_cell))]
fn cell_same(words: &[u32], i: usize, parent: u32, score: f64) -> bool
    requires { CandidateStands words.now i }
    ensures { result ≡ same_cell (cell_of (read_row words.now) i) parent score }
{
    parent_of(words, i) == parent && bits_of(score_of(words, i)) == bits_of(score)
}

// Whether each of them has its own of these.
pub fn cells_same(words: &[u32], count: usize, parents: &[u32; 16], scores: &[f64; 16]) -> bool
    requires { RecordStands words.now count × (count ≤ 16) }
    ensures { result ≡ every_below count (λ i. same_cell (cell_of (read_row words.now) i) (get_or parents.now i 0) (get_or scores.now i nan)) }
{
    (0..count).all(|i| cell_same(words, i, parents[i], scores[i]))
}
