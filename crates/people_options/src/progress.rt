//! How much was read, in a line on standard error, where it takes over a second.
ghost use Rattle.std.specs.Prelude.{◌≡◌};

use std::cell::Cell;
use std::io::{self, Print, Read, Stderr};
use std::time::{Clock, Instant};

// The milliseconds of work before the line appears, and between its updates.
const FIRST: u128 = 1_000;

const AGAIN: u128 = 100;

/// The number of bytes that were read. A line shows it once over a second of work has passed, and is updated at most ten times a
/// second, until it is erased.
#[derive(Drop)]
pub struct Progress<'a, C> {
    clock: &'a C,
    to: Stderr,
    words: &'static str,
    // When the work began. None where no line is shown.
    began: Option<Instant>,
    read: Cell<u64>,
    // The milliseconds of work after which the line is updated next.
    next: Cell<u128>,
    is_shown: Cell<bool>,
}

impl<'a, C: Clock> Progress<'a, C> {
    /// Begins the work: nothing is read yet. The words follow the number of bytes. No line is shown if `speaks` is false.
    pub fn new(clock: &'a C, to: Stderr, words: &'static str, speaks: bool) -> Progress<'a, C> {
        let began = if speaks {
            Instant::now(clock).ok()
        } else {
            None
        };
        Progress {
            clock,
            to,
            words,
            began,
            read: Cell::new(0),
            next: Cell::new(FIRST),
            is_shown: Cell::new(false),
        }
    }

    // Returns the milliseconds since the work began, if they are needed and the clock gives them.
    fn passed(&self) -> Option<u128> {
        let began = self.began?;
        match began.elapsed(self.clock) {
            Ok(passed) => Some(passed.as_millis()),
            Err(_) => None,
        }
    }

    /// Counts this number of bytes more.
    pub fn add(&self, count: usize) {
        let read = self.read.get().saturating_add(count as u64);
        self.read.set(read);
        match self.passed() {
            Some(passed) if passed > self.next.get() => {
                self.next.set(passed.saturating_add(AGAIN));
                self.is_shown.set(true);
                // The work goes on even if the line can't be written.
                let _ = print!(self.to; "\rruvkhiska: {read} {}", self.words);
            }
            _ => {}
        }
    }

    /// Erases the line, if it is shown. No further line is written.
    pub fn end(&self) {
        self.next.set(u128::MAX);
        if self.is_shown.replace(false) {
            let _ = print!(self.to; "\r{:40}\r", "");
        }
    }
}

/// A reader whose bytes are counted.
#[derive(Drop)]
pub struct Counted<'a, C, T> {
    inner: T,
    progress: &'a Progress<'a, C>,
}

impl<'a, C: Clock, T> Counted<'a, C, T> {
    pub fn new(inner: T, progress: &'a Progress<'a, C>) -> Counted<'a, C, T>
        ensures { result.inner ≡ inner }
    {
        Counted { inner, progress }
    }
}

impl<'a, C: Clock, T: Read> Read for Counted<'a, C, T> {
    ghost remaining = { λ s. T.remaining s.inner };

    fn read(&mut self, buf: &mut [u8]) -> io::Result<usize> {
        let count = self.inner.read(buf)?;
        self.progress.add(count);
        Ok(count)
    }
}
