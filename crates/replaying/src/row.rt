// A row's record beside what feeding the fix that it records would write.
ghost use Rattle.std.specs.Prelude.{◌≡◌};
ghost use Rattle.transition.specs.Track.{Track};
ghost use Rattle.transition.specs.inner.Track.{track_in};
ghost use Rattle.transition.specs.Step.{step_on};
ghost use Rattle.replaying.specs.inner.Comparing.{RecordsStand, same_row};

use crate::cells::cells_same;
use journal::buffer::copy_floats;
use journal::record::{FIRST_CELL, distance_count};
use rows::previous::NO_PARENT;
use rows::record::{before_count, candidate_count, candidates_at};
use rows::row::score_row;
use transition::step::Settings;
use transition::track::Track;

// The row at the head of the words `own`, on its predecessor at the head of `previous`, scored as feeding scores it. The fix is rebuilt from the
// record; only parents and scores can differ then.
pub fn row_same(track: &Track<'_>, settings: Settings, own: &[u32], previous: &[u32]) -> bool
    requires { RecordsStand (track_in track.now) own.now previous.now }
    ensures { result ≡ same_row (step_on (track_in track.now) settings) own.now previous.now }
{
    let count = candidate_count(own);
    let before = before_count(own);
    let fix = candidates_at(own, count);
    let n = distance_count(count, before);
    let mut distances = [0.0; 256];
    copy_floats(own, FIRST_CELL + 7 * count + 1, 2, n, &mut distances);
    let mut parents = [NO_PARENT; 16];
    let mut scores = [0.0; 16];
    score_row(
        track,
        previous,
        before,
        fix,
        &distances[..n],
        &mut parents,
        &mut scores,
        settings,
    );
    cells_same(own, count, &parents, &scores)
}
