// The lines of a drive: its network with the windows, its settings, and its fixes with their minutes.
use answers::drive::list_words;
use answers::input::Reader;
use answers::session::Session;
use answers::words::Words;
use journal::call::open;
use std::io;
use text::keyword::Keyword;

// A fix is fed. Only its refusal is told.
fn feed_line(words: &mut Words<'_>, session: &mut Session, journal: &mut [u32]) {
    if let Some(Err(refusal)) = session.read_feed(words, journal) {
        session.out.refusal(b"feed", refusal);
    }
}

// A line is performed. Of the case language's other lines the first word counts as unreadable.
fn perform(keyword: Keyword, words: &mut Words<'_>, session: &mut Session, journal: &mut [u32]) {
    match keyword {
        Keyword::Network => session.network.read(words),
        Keyword::Windows => session.read_windows(words),
        Keyword::Settings => session.read_settings(words),
        Keyword::Minute => session.read_minute(words),
        Keyword::Feed => feed_line(words, session, journal),
        _ => words.refuse(),
    }
}

// Every line up to the input's end or a word that cannot be read, then the used words.
fn drive(input: &mut Reader<'_>, session: &mut Session, journal: &mut [u32]) -> io::Result<()> {
    for _ in 0..u64::MAX {
        let Some(keyword) = input.next_line()? else {
            break;
        };
        let mut words = input.words();
        perform(keyword, &mut words, session, journal);
        input.cursor = words.cursor;
    }
    list_words(journal, &mut session.out);
    session.out.error(input.cursor);
    Ok(())
}

// Where reading fails, only what was told before it.
pub fn run(input: &mut Reader<'_>, session: &mut Session, journal: &mut [u32]) -> io::Result<()> {
    let _ = open(journal);
    let read = drive(input, session, journal);
    session.out.finish()?;
    read
}
