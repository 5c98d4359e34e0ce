// The lines of the case language: which function answers each.
use crate::list::List;
use answers::drive::tell_words;
use answers::input::Reader;
use answers::session::Session;
use answers::setup::poke;
use answers::words::Words;
use std::io;
use text::keyword::Keyword;

// The most words that a journal has, so that 10,000 rows of 4 candidates fit, which take 65 words each.
const MOST_WORDS: u32 = 700000;

// What the program holds between two lines of its input: beside what the programs share, room for a journal, which has so many words of it, and a list
// of segments.
#[derive(Drop)]
pub struct Cases<'a> {
    pub session: Session,
    pub journal: &'a mut [u32],
    pub words: usize,
    pub list: List,
}

impl Cases<'_> {
    // A journal of so many words, each FFFFFFFF, then opened.
    fn new_journal(&mut self, words: &mut Words<'_>) {
        let n = words.count(MOST_WORDS) as usize;
        if !words.bad() && n <= self.journal.len() {
            self.words = n;
            let session = &mut self.session;
            let journal = &mut self.journal[..n];
            journal.fill(4294967295);
            session.open(journal);
        }
    }

    fn tell_kept(&mut self) {
        let told = if self.session.kept {
            b"kept yes\n".as_slice()
        } else {
            b"kept no\n".as_slice()
        };
        self.session.out.bytes(told);
    }

    // The lines that read or change the journal.
    fn answer_on_journal(&mut self, keyword: Keyword, words: &mut Words<'_>) {
        let session = &mut self.session;
        let n = self.words.min(self.journal.len());
        let journal = &mut self.journal[..n];
        match keyword {
            Keyword::Poke => poke(words, journal),
            Keyword::Open => session.open(journal),
            Keyword::Strike => session.strike(words, journal),
            Keyword::Feed => session.feed(words, journal),
            Keyword::Words => tell_words(journal, &mut session.out),
            Keyword::Close => session.close(journal),
            Keyword::Row => session.row(words, journal),
            Keyword::Steps => session.steps(words, journal),
            Keyword::Replay => session.replay(journal),
            _ => {}
        }
    }

    fn build(&mut self) {
        let session = &mut self.session;
        let n = self.words.min(self.journal.len());
        let journal = &mut self.journal[..n];
        self.list.build(session, journal);
    }

    // A line that is in the text as a whole.
    fn answer_whole(&mut self, keyword: Keyword, words: &mut Words<'_>) {
        let session = &mut self.session;
        match keyword {
            Keyword::Network => session.network.read(words),
            Keyword::Windows => session.read_windows(words),
            Keyword::Settings => session.read_settings(words),
            Keyword::Minute => session.read_minute(words),
            Keyword::Short => session.read_short(words),
            Keyword::Route => session.route(words),
            Keyword::Routes => session.routes(),
            Keyword::Triple => session.triple(words),
            Keyword::Journal => self.new_journal(words),
            Keyword::Kept => self.tell_kept(),
            Keyword::Segments => self.build(),
            Keyword::Collapse => self.list.collapse(words, session),
            _ => self.answer_on_journal(keyword, words),
        }
    }

    // The journal is just the words of a `load` from now on.
    fn load(&mut self, input: &mut Reader<'_>) -> io::Result<()> {
        let n = input.load_count(MOST_WORDS).min(self.journal.len());
        input.load(&mut self.journal[..n])?;
        self.words = n;
        Ok(())
    }

    // A line, behind its first word. A `load` reads more of the input as it goes.
    fn answer(&mut self, keyword: Keyword, input: &mut Reader<'_>) -> io::Result<()> {
        match keyword {
            Keyword::Load => self.load(input),
            _ => {
                let mut words = input.words();
                self.answer_whole(keyword, &mut words);
                input.cursor = words.cursor;
                Ok(())
            }
        }
    }

    // Every line up to the input's end, a word that cannot be read, or a read or write that fails.
    fn answer_all(&mut self, input: &mut Reader<'_>) -> io::Result<()> {
        for _ in 0..u64::MAX {
            let Some(keyword) = input.next_line()? else {
                break;
            };
            self.answer(keyword, input)?;
            if !self.session.out.is_written() {
                break;
            }
        }
        self.session.out.error(input.cursor);
        Ok(())
    }

    // What was answered before a failed read is written out.
    pub fn run(&mut self, input: &mut Reader<'_>) -> io::Result<()> {
        let read = self.answer_all(input);
        self.session.out.finish()?;
        read
    }
}
