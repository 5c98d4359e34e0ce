// The words of a line, one after the other.
use text::cursor::{
    Cursor, Taken, refuse, take_count, take_float, take_hex_word, take_if, take_number, take_slice,
};
use text::keyword::Slice;

// Whole words of the input, and where reading stands in them.
#[derive(Clone, Copy)]
pub struct Words<'a> {
    pub text: &'a [u8],
    pub cursor: Cursor,
}

impl Words<'_> {
    // Whether a word could not be read.
    pub fn bad(&self) -> bool {
        let c = self.cursor;
        c.bad
    }

    // The last word that was read counts as unreadable.
    pub fn refuse(&mut self) {
        self.cursor = refuse(self.cursor);
    }

    // What was taken: reading goes on behind it.
    fn past<T: Copy>(&mut self, taken: Taken<T>) -> T {
        self.cursor = taken.cursor;
        taken.value
    }

    pub fn number(&mut self) -> u32 {
        let taken = take_number(self.text, self.cursor);
        self.past(taken)
    }

    // A number up to `most`.
    pub fn count(&mut self, most: u32) -> u32 {
        let taken = take_count(self.text, self.cursor, most);
        self.past(taken)
    }

    // A number below a limit. Another counts as unreadable.
    pub fn number_below(&mut self, limit: usize) -> usize {
        let n = self.number() as usize;
        if n < limit {
            return n;
        }
        self.refuse();
        0
    }

    pub fn hex_word(&mut self) -> u32 {
        let taken = take_hex_word(self.text, self.cursor);
        self.past(taken)
    }

    pub fn float(&mut self) -> f64 {
        let taken = take_float(self.text, self.cursor);
        self.past(taken)
    }

    pub fn slice(&mut self) -> Slice {
        let taken = take_slice(self.text, self.cursor);
        self.past(taken)
    }

    // Whether the next word is this one; only then it is read.
    pub fn has(&mut self, word: &[u8]) -> bool {
        let taken = take_if(self.text, self.cursor, word);
        self.past(taken)
    }
}
