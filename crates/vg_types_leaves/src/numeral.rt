// The values of number and char tokens.
ghost use Rattle.std.specs.Prelude.{◌≡◌, ◌-◌, ◌*◌, true, false, is_some, IfSome};
ghost use Rattle.vg_syntax.specs.Lexemes.{is_hexadecimal};
ghost use Rattle.vg_source.specs.Values as value;
ghost use Rattle.vg_source.specs.Literals.{number_value, number_type, char_of, escaped};
ghost use Rattle.vg_source.specs.Types.{RawType, IntType};
ghost use Rattle.vg_rules.specs.Bodies.{number_keeps};

use vg_types_numbers::{digit_value, number_of};

/// The int of a decimal number, where it is one.
pub(crate) fn decimal(token: &str) -> Option<i32>
    requires { is_hexadecimal token.now ≡ false }
    ensures keeps { is_some result ≡ number_keeps token.now }
    ensures value { IfSome result (λ n. number_value token.now ≡ value.Int n) }
{
    let number = number_of(token);
    if number < 2147483648 {
        Some(number as i32)
    } else if number == 2147483648 {
        Some(i32::MIN)
    } else {
        None
    }
}

#[tactic(auto, using(crate::proofs::Numerals::bits_whole))]
/// The width and the bits of a hexadecimal number of at most 8 digits.
pub(crate) fn hexadecimal(token: &str) -> Option<(u8, u32)>
    requires { is_hexadecimal token.now ≡ true }
    ensures keeps { is_some result ≡ number_keeps token.now }
    ensures value { IfSome result (λ r. number_value token.now ≡ value.Raw r.0 r.1) }
    ensures type_ { IfSome result (λ r. number_type token.now ≡ RawType r.0) }
{
    let length = token.len();
    if length <= 10 {
        let width = 4 * (length as u8).saturating_sub(2);
        Some((width, number_of(token)))
    } else {
        None
    }
}

/// The byte of a char token. None only where the token is no char.
pub(crate) fn byte_of(token: &str) -> Option<u8>
    ensures { IfSome result (λ b. b ≡ char_of token.now) }
{
    match token.as_bytes() {
        [_, byte, _] if *byte != b'\\' => Some(*byte),
        [_, b'\\', letter, _] if *letter != b'x' => Some(escaped(*letter)),
        [_, b'\\', b'x', high, low, _] => u8::try_from(
            16 * digit_value(*high) + digit_value(*low),
        ).ok(),
        _ => None,
    }
}

// The byte that a letter behind a backslash stands for.
fn escaped(letter: u8) -> u8
    ensures { result ≡ escaped letter }
{
    match letter {
        b'n' => b'\n',
        b'r' => b'\r',
        b't' => b'\t',
        b'0' => 0,
        other => other,
    }
}
