// The walk back along the parents, a group at a time.
ghost use Rattle.std.specs.Prelude.{◌≡◌};
ghost use Rattle.closing.specs.inner.Walk.{Reached, RecordLeft};
ghost use Rattle.groups.specs.inner.Gather.{goes_on, RecordTaken, Gathered};

use crate::group::{NetelementGroup, State, new_group, update_group};
use closing::walk::{Back, step_back};
use journal::read::minute_of;
use rows::previous::{NO_PARENT, candidate_of};

// A group as far as it was read, none before its first state, and where the walk then stands. `ended`: the next state is of another element.
#[derive(Clone, Copy)]
pub struct Gathering {
    pub group: Option<NetelementGroup>,
    pub ended: bool,
    pub back: Back,
}

// Whether there may be more states of the group.
#[tactic(auto, unfolding(crate::specs::inner::Gather::goes_on))]
fn goes_on(g: Gathering) -> bool
    ensures { result ≡ goes_on g }
{
    let back = g.back;
    !g.ended && back.rows != 0 && back.candidate != NO_PARENT
}

// One record: a row that scores gives a state, which begins the group, joins it, or ends it.
fn gather_one(journal: &[u32], g: Gathering) -> Gathering
    requires { RecordLeft journal.now g.back }
    ensures { RecordTaken journal.now g result }
{
    let back = g.back;
    let next = step_back(journal, back);
    if next.pairs == back.pairs {
        return Gathering {
            ended: false,
            back: next,
            ..g
        };
    }
    let words = &journal[next.end..];
    let candidate = candidate_of(words, back.candidate as usize);
    let state = State {
        row: next.rows as u32,
        minute: minute_of(words),
        element: candidate.element,
        intrinsic: candidate.intrinsic,
    };
    let group = match g.group {
        None => new_group(state),
        Some(group) => {
            if state.element != group.element {
                return Gathering { ended: true, ..g };
            }
            update_group(group, state)
        }
    };
    Gathering {
        group: Some(group),
        ended: false,
        back: next,
    }
}

// The last group of the states from `back` on, if there is one, and where the walk stands before it.
pub fn gather_group(journal: &[u32], start: Back) -> Gathering
    requires { Reached journal.now start }
    ensures { Gathered journal.now start result }
{
    let mut g = Gathering {
        group: None,
        ended: false,
        back: start,
    };
    while goes_on(g) {
        g = gather_one(journal, g);
    }
    g
}
