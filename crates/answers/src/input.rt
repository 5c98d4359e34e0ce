// Reading standard input: a stretch of it at a time, the text, so that it may be of any length.
// A line, with the comments before and in it, may take up to half of the text, and so may each word of a `load`; a word past that counts as missing.
use crate::words::Words;
use std::io::{self, Read, Stdin};
use text::cursor::{Cursor, at_end, refuse, take_keyword};
use text::keyword::Keyword;
use text::list::first;
use text::window::keep_rest;

// How many bytes of the text are filled, how many of them are whole words, whether the input has ended, and what more of it is read from.
#[derive(Clone, Copy)]
pub struct Input {
    pub filled: usize,
    pub whole: usize,
    pub ended: bool,
    pub stdin: Stdin,
}

// The text, where reading stands in it, and how much of the input it holds.
#[derive(Drop)]
pub struct Reader<'a> {
    text: &'a mut [u8],
    pub cursor: Cursor,
    input: Input,
}

// How many bytes there are up to the last blank: what follows it may be a part of a word.
fn whole_words(text: &[u8]) -> usize {
    match text.iter().rposition(|b| *b == b' ' || *b == b'\n') {
        Some(last) => last + 1,
        None => 0,
    }
}

// More of the input, behind the bytes that are there; answers how many there are then.
fn read_behind(text: &mut [u8], filled: usize, stdin: &mut Stdin) -> io::Result<usize> {
    let mut end = filled;
    while end < text.len() {
        let got = stdin.read(&mut text[end..])?;
        if got == 0 {
            break;
        }
        end += got;
    }
    Ok(end)
}

impl<'a> Reader<'a> {
    pub fn new(text: &'a mut [u8], stdin: Stdin) -> Reader<'a> {
        Reader {
            text,
            cursor: Cursor {
                at: 0,
                words: 0,
                bad: false,
            },
            input: Input {
                filled: 0,
                whole: 0,
                ended: false,
                stdin,
            },
        }
    }

    // Whether so much room as a line may take is left, or all that there is.
    fn is_enough(&self) -> bool {
        let c = self.cursor;
        self.input.ended
            || c.at <= self.input.filled && self.text.len() / 2 <= self.input.filled - c.at
    }

    // Where less than half of the text is left, that moves to the front and more is read behind it.
    fn refill(&mut self) -> io::Result<()> {
        if self.is_enough() {
            return Ok(());
        }
        let left = keep_rest(self.text, self.cursor.at, self.input.filled);
        self.input.filled = read_behind(self.text, left, &mut self.input.stdin)?;
        self.cursor.at = 0;
        self.input.ended = self.input.filled < self.text.len();
        self.input.whole = if self.input.ended {
            self.input.filled
        } else {
            whole_words(self.text)
        };
        Ok(())
    }

    // The whole words that were read of the text so far.
    pub fn words(&self) -> Words<'_> {
        Words {
            text: first(self.text, self.input.whole),
            cursor: self.cursor,
        }
    }

    // The first word of the next line, from where the last one ended, with room for the whole of the line unless the input ends before. There is none
    // where the input has ended, or where a word could not be read: that is an error.
    pub fn next_line(&mut self) -> io::Result<Option<Keyword>> {
        self.refill()?;
        let ended = self.input.ended;
        let words = self.words();
        let taken = take_keyword(words.text, words.cursor);
        match taken.value {
            Keyword::Unknown => {
                if !(ended && at_end(words.text, words.cursor)) {
                    self.cursor = refuse(taken.cursor);
                }
                Ok(None)
            }
            keyword => {
                self.cursor = taken.cursor;
                Ok(Some(keyword))
            }
        }
    }

    // How many words a `load` tells.
    pub fn load_count(&mut self, most: u32) -> usize {
        let mut words = self.words();
        let n = words.count(most);
        self.cursor = words.cursor;
        n as usize
    }

    // A word for each entry of the journal. They may take more than the text holds: more is read between two of them.
    pub fn load(&mut self, journal: &mut [u32]) -> io::Result<()> {
        for entry in journal {
            self.refill()?;
            let mut words = self.words();
            *entry = words.hex_word();
            self.cursor = words.cursor;
        }
        Ok(())
    }
}
