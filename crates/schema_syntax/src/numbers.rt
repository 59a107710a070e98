//! Numbers of occurrences, in digits.
ghost use Rattle.std.specs.Prelude.{◌≡◌, ◌==◌, true};
ghost use Rattle.std.specs.List.{list_all};
ghost use Rattle.base_texts.specs.Digits as decimal;
ghost use Rattle.schema_syntax.specs.Private.Comparing as comparing;
ghost use Rattle.schema_syntax.specs.Digits as numbers;

use base_texts::is_numeral;

fn are_zeros(text: &[u8]) -> bool
    ensures { result ≡ list_all (λ b. b == 48) text.now }
{
    text.iter().all(|byte| *byte == b'0')
}

/// Returns whether the text consists of zeros only.
pub fn is_zero(text: &[u8]) -> bool
    ensures { result ≡ numbers.is_zero text.now }
{
    !text.is_empty() && are_zeros(text)
}

/// Returns the number in digits, if it is below 2^32.
pub fn small_number(digits: &[u8]) -> Option<u32>
    requires { list_all decimal.is_digit digits.now ≡ true }
    ensures { result ≡ numbers.small (decimal.number_of digits.now) }
{
    let mut number = 0u64;
    let mut rest = digits;
    'digits: while let [digit, others @ ..] = rest {
        number = 10 * number + (*digit - b'0') as u64;
        if number > 0xFFFF_FFFF {
            return None;
        }
        rest = others;
    }
    Some(number as u32)
}

/// Returns whether the text is a number of 2^32 or more.
pub fn is_large(text: &[u8]) -> bool
    ensures { result ≡ numbers.is_large text.now }
{
    is_numeral(text) && small_number(text).is_none()
}

// Returns the digits without leading zeros.
fn without_zeros(digits: &[u8]) -> &[u8]
    ensures { result.now ≡ comparing.without_zeros digits.now }
{
    let mut rest = digits;
    'zeros: while let [b'0', others @ ..] = rest {
        rest = others;
    }
    rest
}

// Returns whether the first digit that differs is greater in `a`.
fn is_later(a: &[u8], b: &[u8]) -> bool
    ensures { result ≡ comparing.is_later a.now b.now }
{
    let mut rest = a;
    let mut others = b;
    'digits: while let [x, more @ ..] = rest {
        let [y, behind @ ..] = others else {
            return true;
        };
        if x != y {
            return x > y;
        }
        rest = more;
        others = behind;
    }
    false
}

// Returns whether `a` is greater than `b`, both numbers without leading zeros.
fn is_greater(a: &[u8], b: &[u8]) -> bool
    ensures { result ≡ comparing.is_greater a.now b.now }
{
    if a.len() == b.len() {
        is_later(a, b)
    } else {
        a.len() > b.len()
    }
}

/// Returns whether both are numbers and `a` is greater. They may have any number of digits.
pub fn is_over(a: &[u8], b: &[u8]) -> bool
    ensures { result ≡ numbers.is_over a.now b.now }
{
    is_numeral(a) && is_numeral(b) && is_greater(without_zeros(a), without_zeros(b))
}
