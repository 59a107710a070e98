//! Names and namespaces within the limits of this program.
ghost use Rattle.std.specs.Prelude.{◌≡◌};
ghost use Rattle.base_texts.specs.Limits as rule;

// The greatest length of a prefix or a local name in bytes.
const LONGEST_PART: usize = 255;

// The greatest length of a namespace in bytes.
const LONGEST_SPACE: usize = 1023;

/// Returns whether a prefix or a local name has at most 255 bytes.
pub fn is_short_part(part: &[u8]) -> bool
    ensures { result ≡ rule.is_short_part part.now }
{
    part.len() <= LONGEST_PART
}

/// Returns whether a namespace has at most 1,023 bytes.
pub fn is_short_space(space: &[u8]) -> bool
    ensures { result ≡ rule.is_short_space space.now }
{
    space.len() <= LONGEST_SPACE
}
