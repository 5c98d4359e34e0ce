// The ranges of a candidate's fields, a distance, a score and a parent.
ghost use Rattle.std.specs.Prelude.{◌≡◌, ◌<◌};
ghost use Rattle.journal.specs.Ranges.{intrinsic_ok, raw_log_ok, distance_ok, lowest_score, score_ok, parent_ok, candidate_ok};

use crate::record::Candidate;

pub fn intrinsic_ok(x: f64) -> bool
    ensures { result ≡ intrinsic_ok x }
{
    binary64::in_clear_range(x, 0.0, 1.0)
}

pub fn raw_log_ok(x: f64) -> bool
    ensures { result ≡ raw_log_ok x }
{
    binary64::is_minus_infinity(x) || binary64::in_range(x, -745.0, 0.0)
}

pub fn distance_ok(x: f64) -> bool
    ensures { result ≡ distance_ok x }
{
    binary64::in_range(x, 0.0, 20100000.0)
}

// A candidate in a network of `known` elements.
#[tactic(auto, unfolding(crate::specs::Ranges::candidate_ok))]
pub fn candidate_ok(c: Candidate, known: u32) -> bool
    ensures { result ≡ candidate_ok known c }
{
    c.element < known && intrinsic_ok(c.intrinsic) && c.near <= 1 && raw_log_ok(c.raw_log)
}

// The lowest score of a row.
fn lowest_score(row: u16) -> f64
    ensures { result ≡ lowest_score row }
{
    -10000000000000.0 * ((row as u32 + 1) as f64)
}

pub fn score_ok(x: f64, row: u16) -> bool
    ensures { result ≡ score_ok row x }
{
    binary64::is_minus_infinity(x) || binary64::in_range(x, lowest_score(row), 0.0)
}

// A parent with p predecessor candidates.
pub fn parent_ok(parent: u32, p: u32) -> bool
    ensures { result ≡ parent_ok p parent }
{
    parent < p || parent == 31
}
