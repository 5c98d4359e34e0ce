// Floats in words: raw, high half first. Every NaN is one value.
ghost use Rattle.std.specs.Prelude.{◌≡◌, ◌+◌, ◌<◌, length};
ghost use Rattle.std.proofs.lemmas.List.Edits.{sets};
ghost use Rattle.std.specs.Float.{binary64};
ghost use Rattle.std.specs.Float.Ieee.{to_bits};
ghost use Rattle.std.specs.Float.Ieee.Scale.{finite};
ghost use Rattle.journal.specs.Record.{float_words, float_at};

use std::num::{f64_from_bits_with_nan, f64_to_bits_with_nan};

pub fn is_finite(x: f64) -> bool
    ensures { result ≡ finite x }
{
    x.is_finite()
}

// The bits of x, one pattern for every NaN.
pub fn bits_of(x: f64) -> u64
    ensures { result ≡ to_bits binary64 x }
{
    f64_to_bits_with_nan(x)
}

// The two words of x at `at`.
pub fn put_float(words: &mut [u32], at: usize, x: f64)
    requires { at + 1 < length words.old }
    ensures { words.new ≡ sets words.old at (float_words x) }
{
    let bits = bits_of(x);
    words[at] = (bits / 4294967296) as u32;
    words[at + 1] = (bits % 4294967296) as u32;
}

// The float whose two words start at `at`.
pub fn float_at(words: &[u32], at: usize) -> f64
    requires { at + 1 < length words.now }
    ensures { result ≡ float_at words.now at }
{
    f64_from_bits_with_nan(words[at] as u64 * 4294967296 + words[at + 1] as u64)
}
