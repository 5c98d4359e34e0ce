// Why a call is refused: the numbers of document 01, and 16 and 17 of document 02, K4.
#![tactic(auto)]

ghost use Rattle.std.specs.Prelude.{◌≡◌};
ghost use Rattle.refusals.specs.Refusals.{refusal_number};

#[derive(Clone, Copy, PartialEq, Eq, Debug)]
pub enum Refusal {
    Counts = 1,
    Length = 2,
    Heading = 3,
    Side = 4,
    SelfRelation = 5,
    Setting = 6,
    Journal = 7,
    CandidateCount = 8,
    Candidate = 9,
    Distances = 10,
    RowLimit = 11,
    Room = 12,
    Row = 13,
    Segment = 14,
    Buffer = 15,
    Window = 16,
    Minute = 17,
}

impl Refusal {
    pub fn number(self) -> u32
        ensures { result ≡ refusal_number self }
    {
        self as u32
    }
}
