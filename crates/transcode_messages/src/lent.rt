//! A source over bytes that are lent.
ghost use Rattle.std.specs.Prelude.{◌≡◌, Some};

use base_texts::{Failed, Source};

/// A source over bytes that are lent, which never fails.
#[derive(Drop)]
pub struct Lent<'a> {
    rest: &'a [u8],
}

impl<'a> Lent<'a> {
    /// A source that has these bytes left.
    pub fn new(bytes: &'a [u8]) -> Lent<'a>
        ensures { result.rest.now ≡ bytes.now }
    {
        Lent { rest: bytes }
    }
}

impl<'a> Source for Lent<'a> {
    ghost left = { λ s. Some s.rest.now };

    ghost faults = { λ _. 0 };

    fn read(&mut self, buf: &mut [u8]) -> Result<usize, Failed> {
        let count = self.rest.len().min(buf.len());
        let (front, rest) = self.rest.split_at(count);
        buf[..count].copy_from_slice(front);
        self.rest = rest;
        Ok(count)
    }
}
