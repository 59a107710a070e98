//! The input: a file or the standard input. What was read is kept for complaints.
ghost use Rattle.std.specs.Prelude.{◌≡◌, ◌++◌, None, IfOk, IfSome, IsNone};
ghost use Rattle.people_options.specs.Kept.{input_kept};

use crate::progress::{Counted, Progress};
use base_files::Buffered;
use base_texts::{Failed, Memory, Source};
use std::alloc::Global;
use std::fs;
use std::io::Stdin;
use std::rt::Files;
use std::time::Clock;

// Where the input comes from.
#[derive(Drop)]
enum Origin<'a, R: Files> {
    Standard(Buffered<Counted<'a, R, Stdin>>),
    File(Buffered<Counted<'a, R, R::File>>),
    Missing,
}

/// The input, which may keep what was read.
#[derive(Drop)]
pub struct Input<'a, R: Files> {
    origin: Origin<'a, R>,
    kept: Option<Vec<u8>>,
    faults: u64,
}

impl<'a, R: Files + Clock> Input<'a, R> {
    /// Returns the standard input.
    pub fn standard(
        alloc: Global,
        stdin: Stdin,
        progress: &'a Progress<'a, R>,
        keeps: bool,
    ) -> Result<Input<'a, R>, Memory>
        ensures { IfOk result (λ input. input.faults ≡ 0) }
    {
        let counted = Counted::new(stdin, progress);
        let origin = Origin::Standard(Buffered::new(alloc, counted)?);
        Ok(Input::of(alloc, origin, keeps))
    }

    /// Returns the file of this name. If it can't be opened, each read fails.
    pub fn file(
        alloc: Global,
        rt: &R,
        name: &str,
        progress: &'a Progress<'a, R>,
        keeps: bool,
    ) -> Result<Input<'a, R>, Memory>
        ensures { IfOk result (λ input. input.faults ≡ 0) }
    {
        let origin = match fs::open(rt, name) {
            Ok(file) => Origin::File(Buffered::new(alloc, Counted::new(file, progress))?),
            Err(_) => Origin::Missing,
        };
        Ok(Input::of(alloc, origin, keeps))
    }

    fn of(alloc: Global, origin: Origin<'a, R>, keeps: bool) -> Input<'a, R>
        ensures { result.faults ≡ 0 }
    {
        let kept = if keeps { Some(Vec::new(alloc)) } else { None };
        Input {
            origin,
            kept,
            faults: 0,
        }
    }

    /// Returns what was read, if it is kept.
    pub fn kept(&self) -> &[u8]
        ensures { result.now ≡ input_kept self.now.kept }
    {
        match &self.kept {
            Some(bytes) => bytes.as_slice(),
            None => b"",
        }
    }
}

// Keeps what was read. Without memory for it, nothing is kept any more.
fn keep(kept: &mut Option<Vec<u8>>, bytes: &[u8])
    ensures more { IfSome kept.new (λ more. IfSome kept.old (λ less. more.items ≡ less.items ++ bytes.now)) }
    ensures none { IsNone kept.old → IsNone kept.new }
{
    let fits = match kept {
        Some(kept) => kept.extend_from_slice(bytes).is_ok(),
        None => true,
    };
    if !fits {
        *kept = None;
    }
}

impl<'a, R: Files + Clock> Source for Input<'a, R> {
    ghost left = { λ _. None };

    ghost faults = { λ s. s.faults };

    fn read(&mut self, buf: &mut [u8]) -> Result<usize, Failed> {
        let read = match &mut self.origin {
            Origin::Standard(reader) => reader.read(buf),
            Origin::File(reader) => reader.read(buf),
            Origin::Missing => Err(Failed),
        };
        match read {
            Ok(count) => {
                keep(&mut self.kept, &buf[..count]);
                Ok(count)
            }
            Err(Failed) => {
                self.faults = self.faults.saturating_add(1);
                Err(Failed)
            }
        }
    }
}
