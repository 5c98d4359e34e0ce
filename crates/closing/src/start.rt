// Where the walk back starts.
ghost use Rattle.closing.specs.inner.Walk.{Scoring, Started};

use crate::walk::Back;
use journal::check::{Predecessor, Survey};
use rows::previous::best_previous;

// The score of the best path, and the walk that is to go along it.
#[derive(Clone, Copy)]
pub struct Start {
    pub score: f64,
    pub back: Back,
}

// At the best candidate of the last row that scores, which check 7 found.
pub fn best_start(journal: &[u32], survey: Survey, last: Predecessor) -> Start
    requires { Scoring journal.now survey last }
    ensures { Started journal.now result }
{
    let best = best_previous(&journal[last.place..], last.candidates);
    Start {
        score: best.score,
        back: Back {
            rows: survey.rows,
            end: survey.used,
            latest: last.place,
            candidate: best.candidate,
            pairs: 0,
        },
    }
}
