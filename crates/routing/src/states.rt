// The states of a route, by the predecessors back from the state that ended the search.
ghost use Rattle.std.specs.Prelude.{◌≡◌, ◌++◌, reverse, Some, ℕ, ◌*◌, ◌<◌, ◌≤◌, length, get_or, drop};
ghost use Rattle.network.specs.Graph.{element_count};
ghost use Rattle.network.specs.inner.Compiled.{graph_in};
ghost use Rattle.network.specs.inner.Sound.{SoundGraph};
ghost use Rattle.routing.specs.Search.{searched};
ghost use Rattle.routing.specs.Route.{steps_back, states_back, route_fitted, states_of_end, states_stored};
ghost use Rattle.routing.specs.inner.Goals.{end_answer};

use crate::blocks::no_leaders;
use crate::route::ListedRoute;
use crate::search::{Search, no_costs};
use network::compile::CompiledGraph;
use refusals::Refusal;

// How many states there are from s back to the start, both counted; at most `most`.
fn steps_back(preds: &[u16; 4096], start: usize, most: usize, s: usize) -> usize
    requires s_bound { s < 4096 }
    requires preds_bound { (k : ℕ) → get_or preds.now k 0 < 4096 }
    ensures { result ≡ steps_back preds.now start most s }
{
    let mut at = s;
    for n in 0..most {
        if at == start {
            return n + 1;
        }
        at = preds[at] as usize;
    }
    most
}

// The n states from s back are stored in the first n entries, s last.
fn write_back(preds: &[u16; 4096], s: usize, n: usize, states: &mut [u32])
    requires s_bound { s < 4096 }
    requires preds_bound { (k : ℕ) → get_or preds.now k 0 < 4096 }
    requires n_in_bounds { n ≤ length states.old }
    ensures { states.new ≡ reverse (states_back preds.now n s) ++ drop n states.old }
{
    let mut at = s as u16;
    for i in (0..n).rev() {
        states[i] = at as u32;
        at = preds[at as usize];
    }
}

// The states back from s are listed, where the buffer has room for them.
#[tactic(auto, unfolding(crate::specs::Route::route_fitted, crate::specs::Route::states_stored))]
fn list_back(
    preds: &[u16; 4096],
    start: usize,
    most: usize,
    s: usize,
    cost: f64,
    states: &mut [u32],
) -> Result<Option<ListedRoute>, Refusal>
    requires s_bound { s < 4096 }
    requires preds_bound { (k : ℕ) → get_or preds.now k 0 < 4096 }
    ensures value { result ≡ route_fitted (Some cost) (steps_back preds.now start most s) (length states.old) }
    ensures states_after { states.new ≡ states_stored result (reverse (states_back preds.now (steps_back preds.now start most s) s)) states.old }
{
    let n = steps_back(preds, start, most, s);
    if states.len() < n {
        return Err(Refusal::Buffer);
    }
    write_back(preds, s, n, states);
    Ok(Some(ListedRoute { cost, states: n }))
}

// The states of the cheapest route between two nodes. Never inlined: the search takes stack only while it runs.
#[inline(never)]
pub fn states_between(
    graph: &CompiledGraph<'_>,
    start: usize,
    goal: usize,
    states: &mut [u32],
) -> Result<Option<ListedRoute>, Refusal>
    requires sound_graph { SoundGraph (graph_in graph.now) }
    requires start_bound { start < 2 * element_count (graph_in graph.now) }
    ensures value { result ≡ end_answer (graph_in graph.now) start goal (length states.old) }
    ensures states_after { let g = graph_in graph.now in
        states.new ≡ states_stored result (states_of_end (2 * start) (4 * element_count g) (searched g start goal)) states.old }
{
    let mut search = Search {
        costs: *no_costs(),
        preds: [0; 4096],
        marks: [false; 4096],
        leaders: *no_leaders(),
    };
    search.begin(start);
    match search.find(graph, goal) {
        Some(s) => list_back(
            &search.preds,
            2 * start,
            4 * graph.lengths.len(),
            s,
            search.costs[s],
            states,
        ),
        None => Ok(None),
    }
}
