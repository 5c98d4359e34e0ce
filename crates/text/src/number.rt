// Whole numbers: decimal, or in hexadecimal digits of upper case.
ghost use Rattle.std.specs.Prelude.{◌≡◌, ◌≤◌, ◌<◌, IfSome};
ghost use Rattle.text.specs.inner.Numbers.{value_below, number_of, hex_word_of, figure as Numbers·figure};

// What a digit counts; 16, which no base has, for any byte that is none.
#[tactic(auto, unfolding(crate::specs::inner::Numbers::figure))]
fn figure(b: u8) -> u64
    ensures { result ≡ Numbers·figure b }
{
    match b {
        b'0'..=b'9' => u64::from(b - b'0'),
        b'A'..=b'F' => u64::from(b - b'A') + 10,
        _ => 16,
    }
}

// The number that starts with n and goes on with the digits, where it is below the limit and every byte is a digit of the base.
pub fn read_whole(base: u64, limit: u64, n: u64, bytes: &[u8]) -> Option<u64>
    requires { (1 ≤ base) × (base ≤ 16) × (limit ≤ 1000000000000000) × (n < limit) }
    ensures value { result ≡ value_below base limit n bytes.now }
    ensures below { IfSome result (λ m. m < limit) }
{
    let mut value = n;
    for b in bytes {
        let d = figure(*b);
        if base <= d {
            return None;
        }
        value = value * base + d;
        if limit <= value {
            return None;
        }
    }
    Some(value)
}

// A decimal number of 32 bits.
#[tactic(auto, unfolding(crate::specs::inner::Numbers::number_of))]
pub fn read_number(word: &[u8]) -> Option<u32>
    ensures { result ≡ number_of word.now }
{
    if word.is_empty() {
        return None;
    }
    Some(read_whole(10, 4294967296, 0, word)? as u32)
}

// A word of eight hexadecimal digits.
#[tactic(auto, unfolding(crate::specs::inner::Numbers::hex_word_of))]
pub fn read_hex_word(word: &[u8]) -> Option<u32>
    ensures { result ≡ hex_word_of word.now }
{
    if word.len() != 8 {
        return None;
    }
    Some(read_whole(16, 4294967296, 0, word)? as u32)
}
