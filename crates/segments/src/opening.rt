// Building, before the first turn: all checks, and how many segments there are.
ghost use Rattle.std.specs.Prelude.{◌≡◌, IfOk, IfErr, Err};
ghost use Rattle.segments.specs.Build.{building};
ghost use Rattle.segments.specs.inner.Building.{nothing_left, Opened};

use crate::build::Building;
use crate::segment::zero_segment;
use crate::trail::{Lent, Trail};
use bridges::insert::no_bridges;
use closing::start::best_start;
use closing::walk::Back;
use decoder::known::rows_known;
use journal::check::read_journal;
use refusals::Refusal;

// There are no segments.
#[tactic(auto, unfolding(crate::specs::inner::Building::nothing_left))]
fn nothing_left() -> Building
    ensures { result ≡ nothing_left }
{
    let back = Back {
        rows: 0,
        end: 0,
        latest: 0,
        candidate: 0,
        pairs: 0,
    };
    let trail = Trail {
        group: None,
        bridges: no_bridges(),
        back,
    };
    Building {
        left: 0,
        waiting: 0,
        trail,
        out: zero_segment(),
    }
}

// Before the first turn, for a buffer with so much room: checks 7, 9 and 15 are made and the segments are counted.
pub fn begin(lent: &Lent<'_>, room: usize) -> Result<Building, Refusal>
    ensures begun { IfOk result (λ b. Opened lent.now.net.now lent.now.journal.now room b) }
    ensures refused { IfErr result (λ r. building lent.now.net.now lent.now.journal.now room ≡ Err r) }
{
    let net = lent.net;
    let survey = read_journal(lent.journal)?;
    if !rows_known(
        lent.journal,
        survey.rows,
        survey.used,
        net.lengths.len() as u32,
    ) {
        return Err(Refusal::Candidate);
    }
    let Some(last) = survey.latest else {
        return Ok(nothing_left());
    };
    let start = best_start(lent.journal, survey, last);
    let trail = lent.last_group(start.back);
    let left = lent.count_segments(trail);
    if room < left {
        return Err(Refusal::Buffer);
    }
    Ok(Building {
        left,
        waiting: 0,
        trail,
        out: zero_segment(),
    })
}
