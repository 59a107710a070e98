//! The number of an INTEGER.
ghost use Rattle.std.specs.Prelude.{◌≡◌};

use std::marker::Model;

/// A whole number of at most 128 bits, with its sign, in two words. A number of 16 bytes would align every node of a value to a
/// multiple of 16 bytes.
#[derive(Drop)]
pub struct Integer {
    high: u64,
    low: u64,
}

impl Model for Integer {
    ghost use Rattle.std.specs.Prelude.{ℤ, ◌+◌, ◌*◌, ◌^◌};
    ghost use Rattle.std.specs.Int.{w128, cast_signed};

    ghost Value = { ℤ };

    ghost view = { λ a. cast_signed w128 (a.high * 2 ^ 64 + a.low) };
}

impl Integer {
    /// Returns the number in two words.
    #[inline(always)]
    pub fn of(number: i128) -> Integer
        ensures { result ≡ number }
    {
        let bits = number.cast_unsigned();
        Integer {
            high: (bits >> 64) as u64,
            low: (bits % (1u128 << 64)) as u64,
        }
    }

    /// Returns the number.
    #[inline(always)]
    pub fn get(&self) -> i128
        ensures { result ≡ self.now }
    {
        (u128::from(self.high) * (1u128 << 64) + u128::from(self.low)).cast_signed()
    }
}
