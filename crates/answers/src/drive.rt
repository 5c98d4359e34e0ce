// Opening, feeding and striking, and the used words.
use crate::print::Output;
use crate::session::Session;
use crate::words::Words;
use decoder::feed::feed;
use journal::call::{open, strike};
use journal::fix::GivenFix;
use refusals::Refusal;
use text::keyword::Slice;
use text::list::{first, read_candidates, read_distances};

// How many candidates and distances of a fix are taken in.
pub const CANDIDATES: usize = 20;

pub const PAIRS: usize = 400;

impl Session {
    pub fn open(&mut self, journal: &mut [u32]) {
        let answer = open(journal);
        self.out.done(b"open", answer);
    }

    pub fn strike(&mut self, words: &mut Words<'_>, journal: &mut [u32]) {
        let n = words.number();
        if !words.bad() {
            let answer = strike(journal, n);
            self.out.done(b"strike", answer);
        }
    }

    // A fix, from behind the word `feed`, is read and fed; none where a word of it could not be read.
    pub fn read_feed(
        &mut self,
        words: &mut Words<'_>,
        journal: &mut [u32],
    ) -> Option<Result<(), Refusal>> {
        let n = words.count(20);
        let m = words.count(400);
        let mut elements = [0; CANDIDATES];
        let mut intrinsics = [0.0; CANDIDATES];
        let mut near = [0; CANDIDATES];
        let mut raw_logs = [0.0; CANDIDATES];
        let mut distances = [0.0; PAIRS];
        let between = read_candidates(
            words.text,
            words.cursor,
            n,
            &mut elements,
            &mut intrinsics,
            &mut near,
            &mut raw_logs,
        );
        words.cursor = read_distances(words.text, between, m, &mut distances);
        if words.bad() {
            return None;
        }
        let cuts = self.cuts;
        let fix = GivenFix {
            minute: self.minute,
            elements: first(&elements, cuts.cut(Slice::Elements, n as usize)),
            intrinsics: first(&intrinsics, cuts.cut(Slice::Intrinsics, n as usize)),
            near: first(&near, cuts.cut(Slice::Near, n as usize)),
            raw_logs: first(&raw_logs, cuts.cut(Slice::RawLogs, n as usize)),
            distances: first(&distances, cuts.cut(Slice::Distances, m as usize)),
        };
        let answer = feed(&self.network.lend(&cuts), self.settings, journal, &fix);
        self.cuts.release(Slice::Lengths, Slice::Distances);
        Some(answer)
    }

    pub fn feed(&mut self, words: &mut Words<'_>, journal: &mut [u32]) {
        if let Some(answer) = self.read_feed(words, journal) {
            self.out.done(b"feed", answer);
        }
    }
}

// How many words are used, as word 0 tells it; 0 where it is not of kind 5 or tells more than there are.
fn used_words(journal: &[u32]) -> usize {
    let Some(word) = journal.first() else {
        return 0;
    };
    let used = (*word % 268435456) as usize;
    if *word / 268435456 == 5 && used <= journal.len() {
        return used;
    }
    0
}

// The used words, one a line.
pub fn list_words(journal: &[u32], out: &mut Output) {
    for word in first(journal, used_words(journal)) {
        out.journal_word(*word);
    }
}

pub fn tell_words(journal: &[u32], out: &mut Output) {
    out.header(b"words", used_words(journal));
    list_words(journal, out);
}
