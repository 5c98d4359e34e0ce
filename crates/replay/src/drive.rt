// The lines of the input: a network with its windows, settings, and at the end a journal.
use answers::input::Reader;
use answers::session::Session;
use answers::words::Words;
use std::io;
use text::cursor::refuse;
use text::keyword::Keyword;

// How many words are taken in: 65,535 rows of 4 candidates have 4,259,744. Up to 700,000 stand in an array of that length, which a usual stack holds.
const MOST_WORDS: u32 = 4300000;

const LONG: usize = 4300000;

const SHORT: usize = 700000;

// A line before the journal is performed. Of the case language's other lines the first word counts as unreadable.
fn set_up(keyword: Keyword, words: &mut Words<'_>, session: &mut Session) {
    match keyword {
        Keyword::Network => session.network.read(words),
        Keyword::Windows => session.read_windows(words),
        Keyword::Settings => session.read_settings(words),
        _ => words.refuse(),
    }
}

// The answer, unless a word could not be read.
fn tell(input: &Reader<'_>, session: &mut Session, journal: &[u32]) {
    let c = input.cursor;
    if !c.bad {
        session.tell_replay(journal);
    }
}

// The journal is read, and answered. It ends the input: a word behind it counts as unreadable.
fn replay(input: &mut Reader<'_>, session: &mut Session, journal: &mut [u32]) -> io::Result<()> {
    input.load(journal)?;
    if input.next_line()?.is_some() {
        input.cursor = refuse(input.cursor);
    }
    tell(input, session, journal);
    Ok(())
}

// An array in a function of its own: there alone its entries are looked at by the check.
fn new_short() -> [u32; SHORT] {
    [0; SHORT]
}

fn new_long() -> [u32; LONG] {
    [0; LONG]
}

// Each array stands in the frame of a function of its own, so that it takes stack only where it is needed.
#[inline(never)]
fn replay_short(input: &mut Reader<'_>, session: &mut Session, n: usize) -> io::Result<()> {
    let mut journal = new_short();
    replay(input, session, &mut journal[..n.min(SHORT)])
}

#[inline(never)]
fn replay_long(input: &mut Reader<'_>, session: &mut Session, n: usize) -> io::Result<()> {
    let mut journal = new_long();
    replay(input, session, &mut journal[..n.min(LONG)])
}

// Every line up to the journal, the input's end or a word that cannot be read. Without a journal, one that has no words is answered.
fn drive(input: &mut Reader<'_>, session: &mut Session) -> io::Result<()> {
    for _ in 0..u64::MAX {
        let Some(keyword) = input.next_line()? else {
            tell(input, session, &[]);
            break;
        };
        match keyword {
            Keyword::Load => {
                let n = input.load_count(MOST_WORDS);
                if n <= SHORT {
                    return replay_short(input, session, n);
                }
                return replay_long(input, session, n);
            }
            _ => {
                let mut words = input.words();
                set_up(keyword, &mut words, session);
                input.cursor = words.cursor;
            }
        }
    }
    Ok(())
}

pub fn run(input: &mut Reader<'_>, session: &mut Session) -> io::Result<()> {
    drive(input, session)?;
    session.out.error(input.cursor);
    session.out.finish()
}
