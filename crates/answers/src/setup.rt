// The lines that change what the program holds and answer nothing: settings, minute, windows, poke and short.
use crate::held_network::MOST_WINDOWS;
use crate::session::Session;
use crate::words::Words;
use text::keyword::Slice;
use text::list::read_windows;
use transition::step::Settings;

impl Session {
    pub fn read_settings(&mut self, words: &mut Words<'_>) {
        let beta = words.float();
        let scale = words.float();
        self.settings = Settings { beta, scale };
    }

    // The minute of the calls from now on.
    pub fn read_minute(&mut self, words: &mut Words<'_>) {
        self.minute = words.number();
    }

    // A relation of the network has these windows from now on.
    pub fn read_windows(&mut self, words: &mut Words<'_>) {
        let relation = words.number_below(self.network.relations);
        let count = words.count(6);
        let mut firsts = [0; MOST_WINDOWS];
        let mut lasts = [0; MOST_WINDOWS];
        words.cursor = read_windows(words.text, words.cursor, count, &mut firsts, &mut lasts);
        if !words.bad() {
            self.network.hold_windows(relation, count, &firsts, &lasts);
        }
    }

    // How many entries of a slice the next call gets.
    pub fn read_short(&mut self, words: &mut Words<'_>) {
        let slice = words.slice();
        match slice {
            Slice::Unknown => words.refuse(),
            _ => {
                let n = words.number();
                self.cuts.set(slice, n);
            }
        }
    }
}

// A word at a place of the journal.
pub fn poke(words: &mut Words<'_>, journal: &mut [u32]) {
    let place = words.number_below(journal.len());
    let word = words.hex_word();
    if let Some(entry) = journal.get_mut(place)
        && !words.bad()
    {
        *entry = word;
    }
}
