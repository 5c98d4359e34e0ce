// Words: bytes between spaces, tabs and line ends. A `#` starts a comment up to the line's end, also in the middle of a word, which it ends.
ghost use Rattle.std.specs.Prelude.{◌≡◌, false, ◌+◌, drop};
ghost use Rattle.text.specs.inner.Words.{gap, word_length, next_word, breaks as Words·breaks, commented as Words·commented};

// Where a word starts and ends; one without bytes where no word is left.
#[derive(Clone, Copy)]
pub struct Word {
    pub first: usize,
    pub end: usize,
}

#[tactic(auto, unfolding(crate::specs::inner::Words::breaks))]
fn breaks(b: u8) -> bool
    ensures { result ≡ Words·breaks b }
{
    matches!(b, b'\t' | b'\n' | b'\r' | b' ' | b'#')
}

// Whether a comment goes on after a byte: by branches, so that no byte waits for the one before it.
#[tactic(auto, unfolding(crate::specs::inner::Words::commented))]
fn commented(comment: bool, b: u8) -> bool
    ensures { result ≡ Words·commented comment b }
{
    match b {
        b'\n' => false,
        b'#' => true,
        _ => comment,
    }
}

// Past separators and comments.
fn skip_gap(text: &[u8], at: usize) -> usize
    ensures { result ≡ at + gap false (drop at text.now) }
{
    let mut comment = false;
    for i in at..text.len() {
        let b = text[i];
        if !comment && !breaks(b) {
            return i;
        }
        comment = commented(comment, b);
    }
    at.max(text.len())
}

// Past the bytes of a word.
fn skip_word(text: &[u8], at: usize) -> usize
    ensures { result ≡ at + word_length (drop at text.now) }
{
    let rest = &text[at.min(text.len())..];
    at + rest.iter().take_while(|b| !breaks(**b)).count()
}

// The next word from a place on.
#[tactic(auto, unfolding(crate::specs::inner::Words::next_word))]
pub fn next_word(text: &[u8], at: usize) -> Word
    ensures { result ≡ next_word text.now at }
{
    let first = skip_gap(text, at);
    let end = skip_word(text, first);
    Word { first, end }
}
