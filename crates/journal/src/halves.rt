// Range tests on the two words of a float. Most floats in range are told by their high half alone; the others are tested as floats.
ghost use Rattle.std.specs.Prelude.{◌≡◌, ◌&&◌, ℕ, ◌+◌, ◌*◌, ◌<◌, ◌≤◌, leb, ltb, length, get_or};
ghost use Rattle.std.specs.Float.Ieee.Scale.{finite};
ghost use Rattle.journal.specs.Ranges.{intrinsic_ok, raw_log_ok, score_ok};
ghost use Rattle.journal.specs.Record.{float_at};

use crate::float::{float_at, is_finite};
use crate::range::{intrinsic_ok, raw_log_ok, score_ok};

// Whether a high half is that of a float with its sign bit set and above the negative one whose high half is `bound`.
fn is_above(half: u32, bound: u32) -> bool
    ensures { result ≡ (leb 0x80000000 half && ltb half bound) }
{
    0x8000_0000 <= half && half < bound
}

// An intrinsic below 1.
pub fn intrinsic_reads(words: &[u32], at: usize) -> bool
    requires { at + 1 < length words.now }
    ensures { result ≡ intrinsic_ok (float_at words.now at) }
{
    words[at] < 0x3ff0_0000 || intrinsic_ok(float_at(words, at))
}

// A raw log above -512.
pub fn raw_log_reads(words: &[u32], at: usize) -> bool
    requires { at + 1 < length words.now }
    ensures { result ≡ raw_log_ok (float_at words.now at) }
{
    is_above(words[at], 0xc080_0000) || raw_log_ok(float_at(words, at))
}

// A score above -(2 ^ 43), which is in range in every row.
pub fn score_reads(words: &[u32], at: usize, row: u16) -> bool
    requires { at + 1 < length words.now }
    ensures { result ≡ score_ok row (float_at words.now at) }
{
    is_above(words[at], 0xc2a0_0000) || score_ok(float_at(words, at), row)
}

// A score above minus infinity.
pub fn finite_reads(words: &[u32], at: usize) -> bool
    requires { at + 1 < length words.now }
    ensures { result ≡ finite (float_at words.now at) }
{
    is_above(words[at], 0xfff0_0000) || is_finite(float_at(words, at))
}

// The greatest of the high halves of n floats from `at` on, or 0 without one.
pub fn greatest_half(words: &[u32], at: usize, n: usize) -> u32
    requires { at + 2 * n ≤ length words.now }
    ensures { (k : ℕ) → k < n → get_or words.now (at + 2 * k) 0 ≤ result }
{
    let mut greatest = 0;
    for k in 0..n {
        greatest = greatest.max(words[at + 2 * k]);
    }
    greatest
}
