// Decimal and hexadecimal numbers.
ghost use Rattle.std.specs.Prelude.{◌≡◌, ◌-◌, ◌^◌, min};
ghost use Rattle.std.specs.List.{list_all};
ghost use Rattle.vg_syntax.specs.Bytes.{is_digit};
ghost use Rattle.vg_syntax.specs.Hexadecimal.{digit_value, more_digits};
ghost use Rattle.vg_syntax.specs.Lexemes.{is_hexadecimal};
ghost use Rattle.vg_source.specs.Literals.{number_of, decimal_behind};

/// Whether a token is a hexadecimal number.
pub fn is_hexadecimal(token: &str) -> bool
    ensures { result ≡ is_hexadecimal token.now }
{
    vg_scan::is_hexadecimal(token.as_bytes())
}

/// Whether all bytes of a token are decimal digits.
pub fn are_digits(token: &str) -> bool
    ensures { result ≡ list_all is_digit token.now }
{
    token.as_bytes().iter().all(|b| b.is_ascii_digit())
}

/// The number that a token writes, and the greatest `u32` where it is no less than that. It takes no memory.
pub fn number_of(token: &str) -> u32
    ensures { result ≡ min (number_of token.now) (2 ^ 32 - 1) }
{
    let bytes = token.as_bytes();
    if vg_scan::is_hexadecimal(bytes) {
        let (_, digits) = bytes.split_at(2);
        hexadecimal(digits)
    } else {
        decimal(bytes)
    }
}

// The value of hexadecimal digits.
fn hexadecimal(digits: &[u8]) -> u32
    ensures { result ≡ min (more_digits 0 digits.now) (2 ^ 32 - 1) }
{
    let mut value: u32 = 0;
    for digit in digits {
        value = value.saturating_mul(16).saturating_add(digit_value(*digit));
    }
    value
}

// The value of decimal digits.
fn decimal(digits: &[u8]) -> u32
    ensures { result ≡ min (decimal_behind 0 digits.now) (2 ^ 32 - 1) }
{
    let mut value: u32 = 0;
    for digit in digits {
        value = value.saturating_mul(10).saturating_add(digit_value(*digit));
    }
    value
}

/// The value of a decimal or hexadecimal digit.
pub fn digit_value(digit: u8) -> u32
    ensures { result ≡ digit_value digit }
{
    let value = if digit.is_ascii_digit() {
        digit - b'0'
    } else if digit <= b'F' {
        digit.saturating_sub(b'A' - 10)
    } else {
        digit.saturating_sub(b'a' - 10)
    };
    value as u32
}
