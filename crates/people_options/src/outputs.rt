//! The output: the standard output, or a file.
ghost use Rattle.std.specs.Prelude.{◌≡◌, ◌⊎◌, ◌<◌, ◌≤◌, length, None, IfOk};

use crate::progress::Progress;
use base_files::Writing;
use base_texts::{Failed, Sink, write_all};
use std::alloc::Global;
use std::fs::{self, File};
use std::io::{Stderr, Stdout, Write};
use std::rt::Files;
use std::time::Clock;
use transcode_words::Outcome;

// A file that is being written, and its name until it is complete, if it has another name until then.
#[derive(Drop)]
struct Begun<T> {
    file: T,
    part: Option<String>,
}

// A file to be written.
#[derive(Drop)]
struct Saved<'a, R: Files> {
    alloc: Global,
    rt: &'a R,
    name: &'a str,
    // Whether the file appears complete or not at all.
    is_whole: bool,
    begun: Option<Begun<R::File>>,
}

fn write_piece<W: Write>(to: &mut W, bytes: &[u8]) -> Result<(), Failed> {
    if to.write_all(bytes).is_err() || to.flush().is_err() {
        return Err(Failed);
    }
    Ok(())
}

// Creates a file next to the one of this name.
fn create_part<R: Files>(alloc: Global, rt: &R, name: &str) -> Result<Begun<R::File>, Failed> {
    for n in 0..16u8 {
        let Ok(part) = format!(in alloc; "{name}.{n}.part") else {
            return Err(Failed);
        };
        if let Ok(file) = File::create_new(rt, part.as_str()) {
            let part = Some(part);
            return Ok(Begun { file, part });
        }
    }
    Err(Failed)
}

// Returns whether the name is that of something else than a file, as a device or a pipe.
fn is_special<R: Files>(rt: &R, name: &str) -> bool {
    match fs::metadata(rt, name) {
        Ok(there) => !there.is_file(),
        Err(_) => false,
    }
}

impl<'a, R: Files> Saved<'a, R> {
    fn begin(&self) -> Result<Begun<R::File>, Failed> {
        if self.is_whole && !is_special(self.rt, self.name) {
            return create_part(self.alloc, self.rt, self.name);
        }
        let mut options = File::options();
        let opened = options
            .write(true)
            .create(true)
            .truncate(true)
            .open(self.rt, self.name);
        match opened {
            Ok(file) => Ok(Begun { file, part: None }),
            Err(_) => Err(Failed),
        }
    }

    // Appends the piece. The first piece creates the file.
    fn append(&mut self, piece: &[u8]) -> Result<(), Failed> {
        let mut begun = match self.begun.take() {
            Some(begun) => begun,
            None => self.begin()?,
        };
        let written = write_piece(&mut begun.file, piece);
        self.begun = Some(begun);
        written
    }

    // Gives the complete file its name.
    fn complete(&mut self) -> Result<(), Failed> {
        self.append(b"")?;
        match &self.begun {
            Some(
                Begun {
                    part: Some(part),
                    ..
                },
            ) => match fs::rename(self.rt, part.as_str(), self.name) {
                Ok(()) => Ok(()),
                Err(_) => Err(Failed),
            },
            _ => Ok(()),
        }
    }

    // Removes the file, unless it has its name already.
    fn discard(&mut self) {
        if let Some(
            Begun {
                part: Some(part),
                ..
            },
        ) = &self.begun
        {
            // The fault is reported in any case. The file may remain if it can't be removed either.
            let _ = fs::remove_file(self.rt, part.as_str());
        }
    }
}

// Where the output goes.
#[derive(Drop)]
enum Place<'a, R: Files> {
    Standard(Writing<Stdout>),
    File(Saved<'a, R>),
}

/// The output. Before the first byte the line of the progress is erased.
#[derive(Drop)]
pub struct Output<'a, R: Files> {
    place: Place<'a, R>,
    progress: &'a Progress<'a, R>,
    note: Option<Stderr>,
    faults: u64,
}

/// The note that precedes octets on a terminal.
const NOTE: &str = "ruvkhiska: these are octets, not text; -o FILE writes them to a file\n";

impl<'a, R: Files + Clock> Output<'a, R> {
    /// Returns the standard output. Where `note` is given, a note that octets follow is written to it before the first byte.
    pub fn standard(
        stdout: Stdout,
        note: Option<Stderr>,
        progress: &'a Progress<'a, R>,
    ) -> Output<'a, R>
        ensures { result.faults ≡ 0 }
    {
        Output {
            place: Place::Standard(Writing::new(stdout)),
            progress,
            note,
            faults: 0,
        }
    }

    /// Returns the file of this name. It is created with the first byte. If `is_whole` holds, it appears complete or not at all: it
    /// has another name until `finish`. A device or a pipe is written directly.
    pub fn file(
        alloc: Global,
        rt: &'a R,
        name: &'a str,
        is_whole: bool,
        progress: &'a Progress<'a, R>,
    ) -> Output<'a, R>
        ensures { result.faults ≡ 0 }
    {
        Output {
            place: Place::File(Saved {
                alloc,
                rt,
                name,
                is_whole,
                begun: None,
            }),
            progress,
            note: None,
            faults: 0,
        }
    }

    /// Completes the output of a request with this outcome, and returns the outcome. It is another only where a complete file
    /// can't get its name.
    pub fn finish(&mut self, outcome: Outcome) -> Outcome
        ensures result { (result ≡ outcome) ⊎ ((outcome ≡ Outcome.Done) × (result ≡ Outcome.WriteFault)) }
        ensures same { self.new.faults ≡ self.old.faults }
    {
        let Place::File(saved) = &mut self.place else {
            return outcome;
        };
        if let Outcome::Done = outcome {
            if saved.complete().is_ok() {
                return Outcome::Done;
            }
            saved.discard();
            return Outcome::WriteFault;
        }
        saved.discard();
        outcome
    }

    // Erases the line of the progress, and writes the note.
    fn prepare(&mut self)
        ensures { self.new.faults ≡ self.old.faults }
    {
        self.progress.end();
        if let Some(to) = self.note.take() {
            // The result follows in any case.
            let _ = write_all(&mut Writing::new(to), NOTE.as_bytes());
        }
    }

    fn append(&mut self, piece: &[u8]) -> Result<usize, Failed>
        ensures most { IfOk result (λ n. n ≤ length piece.now) }
        ensures some { IfOk result (λ n. 0 < length piece.now → 0 < n) }
        ensures same { self.new.faults ≡ self.old.faults }
    {
        match &mut self.place {
            Place::Standard(to) => to.write(piece),
            Place::File(saved) => {
                saved.append(piece)?;
                Ok(piece.len())
            }
        }
    }
}

impl<'a, R: Files + Clock> Sink for Output<'a, R> {
    ghost written = { λ _. None };

    ghost faults = { λ s. s.faults };

    ghost free = { λ _. None };

    fn write(&mut self, piece: &[u8]) -> Result<usize, Failed> {
        self.prepare();
        match self.append(piece) {
            Ok(count) => Ok(count),
            Err(Failed) => {
                self.faults = self.faults.saturating_add(1);
                Err(Failed)
            }
        }
    }
}
