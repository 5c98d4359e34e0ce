// The words that lines begin with, and the names of slices.
ghost use Rattle.std.specs.Prelude.{◌≡◌, map};
ghost use Rattle.text.specs.inner.Keywords.{keyword_of, slice_of, entry_for as Keywords·entry_for};

#[derive(Clone, Copy)]
pub enum Keyword {
    Network,
    Settings,
    Journal,
    Feed,
    Open,
    Strike,
    Poke,
    Short,
    Words,
    Close,
    Row,
    Steps,
    Route,
    Routes,
    Triple,
    Segments,
    Collapse,
    Kept,
    Windows,
    Minute,
    Load,
    Replay,
    Unknown,
}

#[derive(Clone, Copy)]
pub enum Slice {
    Lengths,
    Headings,
    Flags,
    From,
    To,
    FromSide,
    ToSide,
    Forward,
    Backward,
    WindowCounts,
    WindowFirsts,
    WindowLasts,
    Elements,
    Intrinsics,
    Near,
    RawLogs,
    Distances,
    Answer,
    Decisions,
    Unknown,
}

const KEYWORDS: [(&[u8], Keyword); 22] = [
    (b"network", Keyword::Network),
    (b"settings", Keyword::Settings),
    (b"journal", Keyword::Journal),
    (b"feed", Keyword::Feed),
    (b"open", Keyword::Open),
    (b"strike", Keyword::Strike),
    (b"poke", Keyword::Poke),
    (b"short", Keyword::Short),
    (b"words", Keyword::Words),
    (b"close", Keyword::Close),
    (b"row", Keyword::Row),
    (b"steps", Keyword::Steps),
    (b"route", Keyword::Route),
    (b"routes", Keyword::Routes),
    (b"triple", Keyword::Triple),
    (b"segments", Keyword::Segments),
    (b"collapse", Keyword::Collapse),
    (b"kept", Keyword::Kept),
    (b"windows", Keyword::Windows),
    (b"minute", Keyword::Minute),
    (b"load", Keyword::Load),
    (b"replay", Keyword::Replay),
];

const SLICES: [(&[u8], Slice); 19] = [
    (b"lengths", Slice::Lengths),
    (b"headings", Slice::Headings),
    (b"flags", Slice::Flags),
    (b"from", Slice::From),
    (b"to", Slice::To),
    (b"from_side", Slice::FromSide),
    (b"to_side", Slice::ToSide),
    (b"forward", Slice::Forward),
    (b"backward", Slice::Backward),
    (b"window_counts", Slice::WindowCounts),
    (b"window_firsts", Slice::WindowFirsts),
    (b"window_lasts", Slice::WindowLasts),
    (b"elements", Slice::Elements),
    (b"intrinsics", Slice::Intrinsics),
    (b"near", Slice::Near),
    (b"raw_logs", Slice::RawLogs),
    (b"distances", Slice::Distances),
    (b"answer", Slice::Answer),
    (b"decisions", Slice::Decisions),
];

// What stands beside the word in a table.
fn entry_for<T: Copy>(table: &[(&[u8], T)], word: &[u8], other: T) -> T
    ensures { result ≡ Keywords·entry_for other (map (λ e. (e.0.now, e.1)) table.now) word.now }
{
    for (name, value) in table {
        if word == *name {
            return *value;
        }
    }
    other
}

// What a line asks for, by its first word.
#[tactic(auto, unfolding(crate::specs::inner::Keywords::keyword_of))]
pub fn read_keyword(word: &[u8]) -> Keyword
    ensures { result ≡ keyword_of word.now }
{
    entry_for(&KEYWORDS, word, Keyword::Unknown)
}

// Which slice a word names.
#[tactic(auto, unfolding(crate::specs::inner::Keywords::slice_of))]
pub fn read_slice(word: &[u8]) -> Slice
    ensures { result ≡ slice_of word.now }
{
    entry_for(&SLICES, word, Slice::Unknown)
}
