// A group of states.
ghost use Rattle.std.specs.Prelude.{◌≡◌};
ghost use Rattle.groups.specs.Groups.{lesser, greater, alone, with_state};

// A state of the path: a row and its minute, and the element and intrinsic of its candidate there.
#[derive(Clone, Copy)]
pub struct State {
    pub row: u32,
    pub minute: u32,
    pub element: u32,
    pub intrinsic: f64,
}

// Consecutive states of one element: the least and the greatest intrinsic, the first and the last row, and the minute of the first.
#[derive(Clone, Copy)]
pub struct NetelementGroup {
    pub element: u32,
    pub minute: u32,
    pub min_intrinsic: f64,
    pub max_intrinsic: f64,
    pub first_row: u32,
    pub last_row: u32,
}

// The definitions' minimum: it differs from `f64::min` at a NaN.
#[tactic(auto, unfolding(crate::specs::Groups::lesser))]
fn min(x: f64, y: f64) -> f64
    ensures { result ≡ lesser x y }
{
    if x < y { x } else { y }
}

// The definitions' maximum: it differs from `f64::max` at a NaN.
#[tactic(auto, unfolding(crate::specs::Groups::greater))]
fn max(x: f64, y: f64) -> f64
    ensures { result ≡ greater x y }
{
    if x < y { y } else { x }
}

// The group of one state.
pub fn new_group(state: State) -> NetelementGroup
    ensures { result ≡ alone state }
{
    NetelementGroup {
        element: state.element,
        minute: state.minute,
        min_intrinsic: state.intrinsic,
        max_intrinsic: state.intrinsic,
        first_row: state.row,
        last_row: state.row,
    }
}

// The group with the state before it.
#[tactic(auto, unfolding(crate::specs::Groups::with_state))]
pub fn update_group(group: NetelementGroup, state: State) -> NetelementGroup
    ensures { result ≡ with_state state group }
{
    NetelementGroup {
        minute: state.minute,
        min_intrinsic: min(state.intrinsic, group.min_intrinsic),
        max_intrinsic: max(state.intrinsic, group.max_intrinsic),
        first_row: state.row,
        ..group
    }
}
