// Writing words into a lent slice, from a place on. Each call answers the place behind what it stored. Where there is no room it stores nothing and
// answers a place that has none, so that a run of calls is tested once, at its end.
ghost use Rattle.std.specs.Prelude.{◌≡◌, ◌≤◌, ◌<◌, length};
ghost use Rattle.text.specs.inner.Written.{last_digits, zeros, decimal, hex_word, hex_float, bytes_stored, place_behind, glyph as Written·glyph};

use journal::float::bits_of;

// A place behind any slice's end.
const NO_ROOM: usize = usize::MAX;

// The bytes of a word.
#[tactic(auto, unfolding(crate::specs::inner::Written::bytes_stored, crate::specs::inner::Written::place_behind))]
pub fn put_bytes(out: &mut [u8], at: usize, word: &[u8]) -> usize
    ensures value { result ≡ place_behind out.old at word.now }
    ensures out_after { out.new ≡ bytes_stored out.old at word.now }
{
    if out.len() < at || out.len() - at < word.len() {
        return NO_ROOM;
    }
    let end = at + word.len();
    out[at..end].copy_from_slice(word);
    end
}

#[tactic(auto, unfolding(crate::specs::inner::Written::glyph))]
fn glyph(d: u64) -> u8
    requires { d < 16 }
    ensures { result ≡ Written·glyph d }
{
    if d < 10 {
        return b'0' + d as u8;
    }
    b'A' + (d - 10) as u8
}

// As many of the last digits of n as there is room for.
fn fill_digits(out: &mut [u8], base: u64, n: u64)
    requires { (1 ≤ base) × (base ≤ 16) }
    ensures { out.new ≡ last_digits base (length out.old) n }
{
    let mut rest = n;
    for k in (0..out.len()).rev() {
        out[k] = glyph(rest % base);
        rest /= base;
    }
}

// How many zeros stand before another digit.
fn count_zeros(digits: &[u8]) -> usize
    ensures { result ≡ zeros digits.now }
{
    let zeros = digits.iter().take_while(|d| **d == b'0').count();
    zeros.min(digits.len().saturating_sub(1))
}

// A number in decimal.
pub fn put_number(out: &mut [u8], at: usize, n: u32) -> usize
    ensures value { result ≡ place_behind out.old at (decimal n) }
    ensures out_after { out.new ≡ bytes_stored out.old at (decimal n) }
{
    let mut digits = [0u8; 10];
    fill_digits(&mut digits, 10, u64::from(n));
    let first = count_zeros(&digits);
    put_bytes(out, at, &digits[first..])
}

// A word in eight hexadecimal digits.
pub fn put_hex_word(out: &mut [u8], at: usize, w: u32) -> usize
    ensures value { result ≡ place_behind out.old at (hex_word w) }
    ensures out_after { out.new ≡ bytes_stored out.old at (hex_word w) }
{
    let mut digits = [0u8; 8];
    fill_digits(&mut digits, 16, u64::from(w));
    put_bytes(out, at, &digits)
}

// A float by its bits, in 16 hexadecimal digits.
pub fn put_float(out: &mut [u8], at: usize, x: f64) -> usize
    ensures value { result ≡ place_behind out.old at (hex_float x) }
    ensures out_after { out.new ≡ bytes_stored out.old at (hex_float x) }
{
    let mut digits = [0u8; 16];
    fill_digits(&mut digits, 16, bits_of(x));
    put_bytes(out, at, &digits)
}
