// Numbers as the values of options.
ghost use Rattle.std.specs.Prelude.{◌≡◌, ◌≤◌, IfSome};
ghost use Rattle.vg_words.specs.Numbers.{is_digit, number};
ghost use Rattle.vg_words.specs.Walk.{decimal_to};

/// The number that `text` spells in decimal, from 1 to `most`, in at most `digits` digits of which the first may be zeros.
/// `None` where it spells none.
pub fn number(digits: usize, most: u32, text: &[u8]) -> Option<u32>
    ensures value { result ≡ number digits most text.now }
    ensures within { IfSome result (λ value. (1 ≤ value) × (value ≤ most)) }
{
    if text.len() > digits {
        return None;
    }
    match decimal_to(most, text) {
        Some(value) if value > 0 => Some(value),
        _ => None,
    }
}

// The number that digits spell, up to a limit. No digits spell 0.
fn decimal_to(most: u32, text: &[u8]) -> Option<u32>
    ensures value { result ≡ decimal_to most text.now }
    ensures within { IfSome result (λ value. value ≤ most) }
{
    let mut value = 0u32;
    for digit in text {
        if !is_digit(*digit) {
            return None;
        }
        let longer = value as u64 * 10 + (*digit - b'0') as u64;
        if longer > most as u64 {
            return None;
        }
        value = longer as u32;
    }
    Some(value)
}

fn is_digit(b: u8) -> bool
    ensures { result ≡ is_digit b }
{
    b >= b'0' && b <= b'9'
}
