// Reading a text word by word.
ghost use Rattle.std.specs.Prelude.{◌≡◌, suc, min};
ghost use Rattle.text.specs.inner.Words.{bytes_of};
ghost use Rattle.text.specs.inner.Cursor.{past_word, taken_as, take_number, marked_bad, take_count, take_hex_word, take_float, take_keyword, take_slice, take_if, at_end};

use crate::float::read_float;
use crate::keyword::{Keyword, Slice, read_keyword, read_slice};
use crate::number::{read_hex_word, read_number};
use crate::word::{Word, next_word};

// Where reading stands: the place behind the words that were read, and how many they are, up to 4,294,967,295. Where the last of them could not be
// read, nothing more is read.
#[derive(Clone, Copy)]
pub struct Cursor {
    pub at: usize,
    pub words: u32,
    pub bad: bool,
}

// What was taken from the text, and where reading stands behind it.
#[derive(Clone, Copy)]
pub struct Taken<T> {
    pub cursor: Cursor,
    pub value: T,
}

// The bytes of a word, as far as the text has them.
pub fn word_bytes<'a>(text: &'a [u8], w: Word) -> &'a [u8]
    ensures { result.now ≡ bytes_of text.now w }
{
    let end = w.end.min(text.len());
    if end < w.first {
        return &text[..0];
    }
    &text[w.first..end]
}

// Past a word, which could be read or not.
fn pass(c: Cursor, w: Word, bad: bool) -> Cursor
    ensures { result ≡ past_word c w bad }
{
    Cursor {
        at: w.end,
        words: c.words.saturating_add(1),
        bad,
    }
}

// What a word was read as; `none` where it is unreadable.
fn taken_as<T: Copy>(c: Cursor, w: Word, read: Option<T>, none: T) -> Taken<T>
    ensures { result ≡ taken_as c w read none }
{
    match read {
        Some(value) => Taken {
            cursor: pass(c, w, false),
            value,
        },
        None => Taken {
            cursor: pass(c, w, true),
            value: none,
        },
    }
}

// The next word as a decimal number.
#[tactic(auto, unfolding(crate::specs::inner::Cursor::take_number))]
pub fn take_number(text: &[u8], c: Cursor) -> Taken<u32>
    ensures { result ≡ take_number text.now c }
{
    if c.bad {
        return Taken {
            cursor: c,
            value: 0,
        };
    }
    let w = next_word(text, c.at);
    taken_as(c, w, read_number(word_bytes(text, w)), 0)
}

// The last word that was read counts as unreadable.
pub fn refuse(c: Cursor) -> Cursor
    ensures { result ≡ marked_bad c }
{
    Cursor { bad: true, ..c }
}

// The next word as a number up to `most`. A larger one counts as unreadable.
#[tactic(auto, unfolding(crate::specs::inner::Cursor::take_count))]
pub fn take_count(text: &[u8], c: Cursor, most: u32) -> Taken<u32>
    ensures { result ≡ take_count text.now most c }
{
    let taken = take_number(text, c);
    if taken.value <= most {
        return taken;
    }
    Taken {
        cursor: refuse(taken.cursor),
        value: 0,
    }
}

// The next word as a word of eight hexadecimal digits.
#[tactic(auto, unfolding(crate::specs::inner::Cursor::take_hex_word))]
pub fn take_hex_word(text: &[u8], c: Cursor) -> Taken<u32>
    ensures { result ≡ take_hex_word text.now c }
{
    if c.bad {
        return Taken {
            cursor: c,
            value: 0,
        };
    }
    let w = next_word(text, c.at);
    taken_as(c, w, read_hex_word(word_bytes(text, w)), 0)
}

// The next word as a float.
#[tactic(auto, unfolding(crate::specs::inner::Cursor::take_float))]
pub fn take_float(text: &[u8], c: Cursor) -> Taken<f64>
    ensures { result ≡ take_float text.now c }
{
    if c.bad {
        return Taken {
            cursor: c,
            value: 0.0,
        };
    }
    let w = next_word(text, c.at);
    taken_as(c, w, read_float(word_bytes(text, w)), 0.0)
}

// The next word as what a line asks for. No word is unreadable here: the caller judges what is unknown.
#[tactic(auto, unfolding(crate::specs::inner::Cursor::take_keyword))]
pub fn take_keyword(text: &[u8], c: Cursor) -> Taken<Keyword>
    ensures { result ≡ take_keyword text.now c }
{
    if c.bad {
        return Taken {
            cursor: c,
            value: Keyword::Unknown,
        };
    }
    let w = next_word(text, c.at);
    Taken {
        cursor: pass(c, w, false),
        value: read_keyword(word_bytes(text, w)),
    }
}

// The next word as the name of a slice, as with keywords.
#[tactic(auto, unfolding(crate::specs::inner::Cursor::take_slice))]
pub fn take_slice(text: &[u8], c: Cursor) -> Taken<Slice>
    ensures { result ≡ take_slice text.now c }
{
    if c.bad {
        return Taken {
            cursor: c,
            value: Slice::Unknown,
        };
    }
    let w = next_word(text, c.at);
    Taken {
        cursor: pass(c, w, false),
        value: read_slice(word_bytes(text, w)),
    }
}

// Past the next word where it is the given one, and whether it is.
#[tactic(auto, using(crate::proofs::Bytes::same_pointwise), unfolding(crate::specs::inner::Cursor::take_if))]
pub fn take_if(text: &[u8], c: Cursor, word: &[u8]) -> Taken<bool>
    ensures { result ≡ take_if text.now word.now c }
{
    if !c.bad {
        let w = next_word(text, c.at);
        if word_bytes(text, w) == word {
            return Taken {
                cursor: pass(c, w, false),
                value: true,
            };
        }
    }
    Taken {
        cursor: c,
        value: false,
    }
}

// Whether no word is left.
#[tactic(auto, unfolding(crate::specs::inner::Cursor::at_end))]
pub fn at_end(text: &[u8], c: Cursor) -> bool
    ensures { result ≡ at_end text.now c }
{
    let w = next_word(text, c.at);
    w.first == w.end
}
