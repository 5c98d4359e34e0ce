// The rows of a journal, the oldest first, compared with what feeding their fixes would write. Rows of one minute share a compiled network.
ghost use Rattle.std.specs.Prelude.{◌≡◌, Ok, ◌<◌, MatchResult};
ghost use Rattle.network.specs.Network.{known_count, checked};
ghost use Rattle.network.specs.Graph.{element_count};
ghost use Rattle.journal.specs.Row.{row_number};
ghost use Rattle.journal.specs.inner.Rows.{rows_in};
ghost use Rattle.transition.specs.inner.Track.{TrackFits, track_in};
ghost use Rattle.transition.specs.Step.{step_on, transition};
ghost use Rattle.replaying.specs.Replay.{first_differing};
ghost use Rattle.replaying.specs.inner.Comparing.{Replayable, StandsAt, Stretch, Differing, Compared, FirstDiffers};

use crate::row::row_same;
use journal::lengths::record_length;
use journal::read::minute_of;
use network::compile::{CompiledGraph, compile_network};
use network::lent::Network;
use rows::record::{before_count, candidate_count, predecessor_place};
use transition::step::Settings;
use transition::track::Track;

// A network that was checked, and a journal of elements that it knows, whose used words end at `end`.
#[derive(Clone, Copy)]
pub struct Standing<'a> {
    pub net: &'a Network<'a>,
    pub settings: Settings,
    pub journal: &'a [u32],
    pub end: usize,
    ghost accepted: { checked net.now ≡ Ok tt },
    ghost replayable: { Replayable (known_count net.now) (rows_in journal.now) journal.now end },
}

// How far the comparison came: a row's number, and where its record starts; past the last row, the end of the used words.
#[derive(Clone, Copy)]
pub struct Reached {
    pub row: u32,
    pub at: usize,
}

// From a row on, up to one of another minute than the compiled network; or the number of the first that differs.
fn compare_stretch(
    track: &Track<'_>,
    settings: Settings,
    minute: u32,
    journal: &[u32],
    end: usize,
    start: Reached,
) -> Result<Reached, u32>
    requires track_fits { TrackFits (track_in track.now) }
    requires replayable { Replayable (element_count (track_in track.now).graph) (rows_in journal.now) journal.now end }
    requires stands_at { let rs = rows_in journal.now in
        StandsAt rs start.row start.at × (start.at < end) × ((row_number rs start.row).minute ≡ minute) }
    ensures { let step = step_on (track_in track.now) settings in
        MatchResult result (Stretch step minute (rows_in journal.now) start.row) (Differing step minute (rows_in journal.now) start.row) }
{
    let mut at = start.at;
    let mut row = start.row;
    while at < end {
        let own = &journal[at..];
        if minute_of(own) != minute {
            return Ok(Reached { row, at });
        }
        let place = predecessor_place(own);
        if !row_same(track, settings, own, &journal[place..]) {
            return Err(row);
        }
        at += record_length(candidate_count(own), before_count(own));
        row += 1;
    }
    Ok(Reached { row, at })
}

impl Standing<'_> {
    // From a row on, up to one of another minute than it; or the number of the first that differs. The network is compiled for its minute.
    fn compare_minute(&self, start: Reached) -> Result<Reached, u32>
        requires { Compared (transition self.now.net.now self.now.settings) (rows_in self.now.journal.now) start × (start.at < self.now.end) }
        ensures { let step = transition self.now.net.now self.now.settings in let rs = rows_in self.now.journal.now in
            MatchResult result (λ r. Compared step rs r × (start.row < r.row)) (FirstDiffers step rs) }
    {
        let net = self.net;
        let minute = minute_of(&self.journal[start.at..]);
        let mut graph = CompiledGraph {
            lengths: net.lengths,
            heads: [0; 2048],
            links: [0; 8192],
        };
        compile_network(net, minute, &mut graph);
        let track = Track {
            graph: &graph,
            headings: net.headings,
            flags: net.flags,
        };
        compare_stretch(&track, self.settings, minute, self.journal, self.end, start)
    }

    // The number of the first row that differs, if one does.
    pub fn compare_rows(&self) -> Option<u32>
        ensures { result ≡ first_differing (transition self.now.net.now self.now.settings) (rows_in self.now.journal.now) }
    {
        let mut reached = Reached { row: 0, at: 1 };
        while reached.at < self.end {
            match self.compare_minute(reached) {
                Ok(next) => reached = next,
                Err(row) => return Some(row),
            }
        }
        None
    }
}
