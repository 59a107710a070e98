//! Decimal digits.
ghost use Rattle.std.specs.Prelude.{◌≡◌};
ghost use Rattle.std.specs.List.{list_all};
ghost use Rattle.base_texts.specs.Digits as rule;

/// Returns whether the byte is an ASCII digit.
pub fn is_digit(b: u8) -> bool
    ensures { result ≡ rule.is_digit b }
{
    matches!(b, b'0'..=b'9')
}

/// Returns whether each byte is a digit.
pub fn are_digits(text: &[u8]) -> bool
    ensures { result ≡ list_all rule.is_digit text.now }
{
    text.iter().all(|b| is_digit(*b))
}

/// Returns whether the text is one digit or more, and nothing else.
pub fn is_numeral(text: &[u8]) -> bool
    ensures { result ≡ rule.is_numeral text.now }
{
    !text.is_empty() && are_digits(text)
}
