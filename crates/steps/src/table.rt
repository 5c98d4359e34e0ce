// The steps of a row by value, each by its pair's number.
ghost use Rattle.std.specs.Prelude.{◌≡◌, ℕ, ◌<◌, ◌≤◌, Ok, length};
ghost use Rattle.network.specs.Network.{known_count, checked};
ghost use Rattle.transition.specs.Step.{transition};
ghost use Rattle.journal.specs.Record.{read_row};

use crate::fill::TwoRows;
use crate::find::check_row;
use journal::read::minute_of;
use journal::record::distance_count;
use network::compile::{CompiledGraph, compile_network};
use network::lent::Network;
use refusals::Refusal;
use rows::record::candidate_count;
use transition::step::Settings;
use transition::track::Track;

// The predecessor's number and the row's, how many candidates the predecessor has and how many pairs there are, and their steps.
#[derive(Clone, Copy)]
pub struct RowSteps {
    pub predecessor_row: u32,
    pub row: u32,
    pub count: usize,
    pub n: usize,
    pub steps: [Option<f64>; 256],
    ghost wide: { length steps ≡ 256 },
    ghost few: { n ≤ 256 },
    ghost some: { 0 < n → 0 < count },
}

impl RowSteps {
    ghost use Rattle.steps.specs.Listing.{listing};
    ghost use Rattle.steps.specs.inner.Find.{TwoRecords};
    ghost use Rattle.steps.specs.inner.Tables.{possible_count, steps_fitted, row_listed, found_listed};
    ghost use Rattle.steps.specs.Steps.{steps_between};

    // No pairs.
    fn none() -> RowSteps
        ensures { result.n ≡ 0 }
    {
        RowSteps {
            predecessor_row: 0,
            row: 0,
            count: 0,
            n: 0,
            steps: [None; 256],
        }
    }

    // Those between two rows, whose records stand at the head of some words. The network, which is accepted, is compiled for the own row's minute.
    fn between<'a>(
        net: &Network<'a>,
        settings: Settings,
        own: &'a [u32],
        previous: &'a [u32],
        predecessor_row: u32,
        row: u32,
    ) -> RowSteps
        requires net_value { checked net.now ≡ Ok tt }
        requires two_records { TwoRecords (known_count net.now) own.now previous.now }
        ensures { let p = read_row previous.now in
            let r = read_row own.now in
            (room : ℕ) → row_listed result room ≡ steps_fitted (steps_between (transition net.now settings r.minute) predecessor_row p row r) room }
    {
        let mut graph = CompiledGraph {
            lengths: net.lengths,
            heads: [0; 2048],
            links: [0; 8192],
        };
        compile_network(net, minute_of(own), &mut graph);
        let count = candidate_count(previous);
        let rows = TwoRows {
            track: Track {
                graph: &graph,
                headings: net.headings,
                flags: net.flags,
            },
            settings,
            own,
            previous,
        };
        RowSteps {
            predecessor_row,
            row,
            count,
            n: distance_count(candidate_count(own), count),
            steps: rows.pair_steps(),
        }
    }

    // Those into a row: checks 1 to 5, 16, 6, 7, 9 and 13.
    pub fn find(
        net: &Network<'_>,
        settings: Settings,
        journal: &[u32],
        row: u32,
    ) -> Result<RowSteps, Refusal>
        ensures { (room : ℕ) → found_listed result room ≡ listing net.now settings journal.now row room }
    {
        match check_row(net, settings, journal, row)? {
            None => Ok(RowSteps::none()),
            Some(found) => Ok(RowSteps::between(
                net,
                settings,
                &journal[found.place..],
                &journal[found.before..],
                found.predecessor as u32,
                row,
            )),
        }
    }

    // How many are possible.
    #[tactic(auto, unfolding(crate::specs::inner::Tables::possible_count))]
    pub fn possible(&self) -> usize
        ensures { result ≡ possible_count self.now.steps self.now.n }
    {
        self.steps[..self.n].iter().filter(|s| s.is_some()).count()
    }
}
