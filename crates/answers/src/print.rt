// The output: bytes in a buffer that is written out when it is nearly full.
use refusals::Refusal;
use std::io::{self, Stdout, Write};
use text::cursor::Cursor;
use text::list::first;
use text::write::{put_bytes, put_float, put_hex_word, put_number};

const OUTPUT_BYTES: usize = 65536;

// Room for the longest word.
const WORD: usize = 64;

// The buffer, the place in it behind what was printed, what it is written out to, and whether that succeeded so far: once a write has failed, there is
// no other.
#[derive(Drop)]
pub struct Output {
    bytes: [u8; OUTPUT_BYTES],
    at: usize,
    stdout: Stdout,
    written: io::Result<()>,
}

impl Output {
    pub fn new(stdout: Stdout) -> Output {
        Output {
            bytes: [0; OUTPUT_BYTES],
            at: 0,
            stdout,
            written: Ok(()),
        }
    }

    // Whether no write has failed.
    pub fn is_written(&self) -> bool {
        self.written.is_ok()
    }

    // What was printed is written out.
    fn flush(&mut self) {
        if self.is_written() {
            self.written = self.stdout.write_all(first(&self.bytes, self.at));
        }
        self.at = 0;
    }

    // The same for the last time.
    pub fn finish(&mut self) -> io::Result<()> {
        self.flush();
        self.written
    }

    // Room for a word.
    fn make_room(&mut self) {
        if OUTPUT_BYTES - WORD <= self.at {
            self.flush();
        }
    }

    pub fn bytes(&mut self, bytes: &[u8]) {
        self.make_room();
        self.at = put_bytes(&mut self.bytes, self.at, bytes);
    }

    // A number without a blank before it.
    pub fn digits(&mut self, n: u32) {
        self.make_room();
        self.at = put_number(&mut self.bytes, self.at, n);
    }

    // A blank and a number.
    pub fn number(&mut self, n: u32) {
        self.bytes(b" ");
        self.at = put_number(&mut self.bytes, self.at, n);
    }

    // A count, which is below 2^32.
    pub fn count(&mut self, n: usize) {
        if let Ok(n) = u32::try_from(n) {
            self.number(n);
        }
    }

    // A blank and a float's bits.
    pub fn float(&mut self, x: f64) {
        self.bytes(b" ");
        self.at = put_float(&mut self.bytes, self.at, x);
    }

    pub fn end_line(&mut self) {
        self.bytes(b"\n");
    }

    // A word of a journal on a line.
    pub fn journal_word(&mut self, word: u32) {
        self.make_room();
        self.at = put_hex_word(&mut self.bytes, self.at, word);
        self.end_line();
    }

    // A call's name and how many entries its list has.
    pub fn header(&mut self, name: &[u8], n: usize) {
        self.bytes(name);
        self.count(n);
        self.end_line();
    }

    // A call's name and the number of its refusal.
    pub fn refusal(&mut self, name: &[u8], refusal: Refusal) {
        self.bytes(name);
        self.bytes(b" refused");
        self.number(refusal.number());
        self.end_line();
    }

    // A call's name, and what it answers where that is no list.
    pub fn done(&mut self, name: &[u8], answer: Result<(), Refusal>) {
        match answer {
            Ok(()) => {
                self.bytes(name);
                self.bytes(b" ok\n");
            }
            Err(refusal) => self.refusal(name, refusal),
        }
    }

    // The number of the word that could not be read, where there is one.
    pub fn error(&mut self, c: Cursor) {
        if c.bad {
            self.bytes(b"error");
            self.number(c.words);
            self.end_line();
        }
    }
}
