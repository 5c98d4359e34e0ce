// Floats: 16 hexadecimal digits, or a decimal for people. A decimal has at most 15 digits, so no word is both.
ghost use Rattle.std.specs.Prelude.{◌≡◌, ◌^◌, ◌≤◌, ◌<◌, length};
ghost use Rattle.std.specs.Float.{binary64};
ghost use Rattle.std.specs.Float.Ieee.{round};
ghost use Rattle.text.specs.inner.Floats.{bits_of, point, decimal_of, signed_of, float_of};

use crate::number::read_whole;
use journal::float::float_at;

// A float by its bits.
fn read_bits(word: &[u8]) -> Option<f64>
    ensures { result ≡ bits_of word.now }
{
    if word.len() != 16 {
        return None;
    }
    let high = read_whole(16, 4294967296, 0, &word[..8])?;
    let low = read_whole(16, 4294967296, 0, &word[8..])?;
    Some(float_at(&[high as u32, low as u32], 0))
}

// How many bytes come before the first point.
fn point_at(word: &[u8]) -> usize
    ensures value { result ≡ point word.now }
    ensures within { result ≤ length word.now }
{
    word.iter().take_while(|b| **b != b'.').count()
}

// n divided by 10 to the k, rounded once: both are floats exactly.
fn quotient(negative: bool, n: u64, k: usize) -> f64
    requires { (n < 1000000000000000) × (k ≤ 15) }
    ensures { result ≡ round binary64 negative n (10 ^ k) }
{
    let q = n as f64 / 10u64.pow(k as u32) as f64;
    if negative { -q } else { q }
}

// A decimal without its sign.
fn read_decimal(negative: bool, word: &[u8]) -> Option<f64>
    ensures { result ≡ decimal_of negative word.now }
{
    let p = point_at(word);
    if p == 0 || p + 1 == word.len() {
        return None;
    }
    let behind = &word[(p + 1).min(word.len())..];
    if 15 < p + behind.len() {
        return None;
    }
    let front = read_whole(10, 1000000000000000, 0, &word[..p])?;
    let n = read_whole(10, 1000000000000000, front, behind)?;
    Some(quotient(negative, n, behind.len()))
}

// A decimal with its sign, or minus infinity.
fn read_signed(word: &[u8]) -> Option<f64>
    ensures { result ≡ signed_of word.now }
{
    if word == b"-inf".as_slice() {
        return Some(binary64::minus_infinity());
    }
    match word.strip_prefix(b"-") {
        Some(digits) => read_decimal(true, digits),
        None => read_decimal(false, word),
    }
}

// A float of either form.
#[tactic(auto, unfolding(crate::specs::inner::Floats::float_of))]
pub fn read_float(word: &[u8]) -> Option<f64>
    ensures { result ≡ float_of word.now }
{
    read_bits(word).or_else(|| read_signed(word))
}
