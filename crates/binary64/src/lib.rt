// Range tests on f64, and the two infinities. The laws of rounded sums that the other crates cite are in proofs/.
#![tactic(auto)]

ghost use Rattle.std.specs.Prelude.{◌≡◌, true, false};
ghost use Rattle.std.specs.Float.{inf};
ghost use Rattle.binary64.specs.Values.{is_minus_infinity};
ghost use Rattle.binary64.specs.Ranges.{in_range, in_clear_range, in_open_range};

pub fn infinity() -> f64
    ensures { result ≡ inf false }
{
    f64::INFINITY
}

pub fn minus_infinity() -> f64
    ensures { result ≡ inf true }
{
    f64::NEG_INFINITY
}

pub fn is_minus_infinity(x: f64) -> bool
    ensures { result ≡ is_minus_infinity x }
{
    x == minus_infinity()
}

// From low to high.
#[tactic(auto, unfolding(crate::specs::Ranges::in_range))]
pub fn in_range(x: f64, low: f64, high: f64) -> bool
    ensures { result ≡ in_range low high x }
{
    low <= x && x <= high
}

// From low to high, with the sign bit clear. By the bits: LLVM makes a branch of `is_sign_positive`.
#[tactic(auto, unfolding(crate::specs::Ranges::in_clear_range))]
pub fn in_clear_range(x: f64, low: f64, high: f64) -> bool
    ensures { result ≡ in_clear_range low high x }
{
    in_range(x, low, high) && x.to_bits() < 0x8000_0000_0000_0000
}

// From low up to, and without, high.
#[tactic(auto, unfolding(crate::specs::Ranges::in_open_range))]
pub fn in_open_range(x: f64, low: f64, high: f64) -> bool
    ensures { result ≡ in_open_range low high x }
{
    low <= x && x < high
}
