//! A source over a buffered reader.
ghost use Rattle.std.specs.Prelude.{◌≡◌, ◌≤◌, IfOk, length, take};
ghost use Rattle.std.specs.Io.Buffered.{reader_remaining};

use base_texts::{Failed, Memory, Source};
use std::alloc::Global;
use std::io::{BufRead, BufReader, Read};

// The greatest number of bytes of the reader in one read.
const BLOCK: usize = 65_536;

/// A source over a reader that is read in blocks of at most 65,536 bytes. A byte of the current block costs no call of the
/// reader's `read`, which suits decoding, where one or a few bytes are requested at a time.
#[derive(Drop)]
pub struct Buffered<R> {
    inner: BufReader<R>,
    faults: u64,
}

impl<R: Read + Drop> Buffered<R> {
    #[tactic(auto, using(crate::proofs::Front::fresh))]
    pub fn new(alloc: Global, inner: R) -> Result<Buffered<R>, Memory>
        ensures left { IfOk result (λ s. reader_remaining R.remaining s.inner ≡ R.remaining inner) }
        ensures faults { IfOk result (λ s. s.faults ≡ 0) }
    {
        let Ok(inner) = BufReader::with_capacity(alloc, BLOCK, inner) else {
            return Err(Memory);
        };
        Ok(Buffered { inner, faults: 0 })
    }
}

impl<R: Read> Buffered<R> {
    ghost use Rattle.std.specs.Prelude.{IsErr};
    ghost use Rattle.std.specs.Io.{ReadsAtMost};
    ghost use Rattle.std.specs.Io.KnownBytes.{ReadConsumes};
    ghost use Rattle.base_texts.specs.Faults.{Counts};

    // Reads when the block has fewer bytes than are requested.
    #[inline(never)]
    fn read_on(&mut self, buf: &mut [u8]) -> Result<usize, Failed>
        ensures bound { ReadsAtMost result buf.new }
        ensures bytes { ReadConsumes (reader_remaining R.remaining self.old.inner) (reader_remaining R.remaining self.new.inner) result buf.new }
        ensures cause { Counts self.old.faults self.new.faults (IsErr result) }
    {
        match self.inner.read(buf) {
            Ok(count) => Ok(count),
            Err(_) => {
                self.faults = self.faults.saturating_add(1);
                Err(Failed)
            }
        }
    }
}

// Fills the buffer with the first bytes. A single byte is stored directly, since a call costs more.
#[inline(always)]
fn fill(buf: &mut [u8], from: &[u8])
    requires { length buf.old ≤ length from.now }
    ensures { buf.new ≡ take (length buf.old) from.now }
{
    if buf.len() == 1 {
        buf[0] = from[0];
    } else {
        buf.copy_from_slice(&from[..buf.len()]);
    }
}

impl<R: Read> Source for Buffered<R> {
    ghost left = { λ s. reader_remaining R.remaining s.inner };

    ghost faults = { λ s. s.faults };

    #[inline(always)]
    #[tactic(auto, using(crate::proofs::Front::handed_on))]
    fn read(&mut self, buf: &mut [u8]) -> Result<usize, Failed> {
        let front = self.inner.buffer();
        if !buf.is_empty() && buf.len() <= front.len() {
            fill(buf, front);
            self.inner.consume(buf.len());
            return Ok(buf.len());
        }
        self.read_on(buf)
    }
}
