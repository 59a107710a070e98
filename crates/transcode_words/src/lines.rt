//! The line that complaints receive.
ghost use Rattle.std.specs.Prelude.{◌≡◌, ◌≤◌, ◌++◌, IsErr, OnOk, OnErr, map, codes, decimal, length};
ghost use Rattle.std.specs.List.{concat};
ghost use Rattle.std.specs.Io.KnownBytes.{Appends};
ghost use Rattle.base_texts.specs.Faults.{Counts};
ghost use Rattle.base_texts.specs.Bytes.{AppendsFront};
ghost use Rattle.transcode_words.specs.Lines as lines;
ghost use Rattle.transcode_words.specs.Lines.{IsShort};
ghost use Rattle.transcode_words.specs.Private.Parts.{spelled};

use crate::outcome::Outcome;
use arrayvec::ArrayVec;
use base_texts::{Failed, Sink, write_all};
use itoa::Buffer;

// The room for a line. The longest, that of the usage, has 233 bytes.
const ROOM: usize = 256;

// Joins the pieces, for which there is room.
fn joined(parts: &[&[u8]]) -> ArrayVec<u8, ROOM>
    requires { length (concat (map (λ part. part.now) parts.now)) ≤ 256 }
    ensures { result.items ≡ concat (map (λ part. part.now) parts.now) }
{
    let mut line = ArrayVec::new();
    for part in parts {
        // There is room for it, so this doesn't fail.
        let _ = line.try_extend_from_slice(part);
    }
    line
}

// A line as its parts: text with up to two numbers and the name of a reason in it.
#[derive(Clone, Copy)]
pub(crate) struct Parts {
    pub(crate) head: &'static [u8],
    pub(crate) file: Option<u64>,
    pub(crate) middle: &'static [u8],
    pub(crate) at: Option<u64>,
    pub(crate) tail: &'static [u8],
    pub(crate) reason: &'static [u8],
    pub(crate) end: &'static [u8],
}

pub(crate) fn plain(head: &'static [u8]) -> Parts
    ensures { spelled result ≡ head.now }
{
    Parts {
        head,
        file: None,
        middle: b"",
        at: None,
        tail: b"",
        reason: b"",
        end: b"",
    }
}

pub(crate) fn of_file(file: u32, tail: &'static [u8]) -> Parts
    ensures { spelled result ≡ codes "file " ++ decimal file ++ tail.now }
{
    Parts {
        head: b"file ",
        file: Some(u64::from(file)),
        middle: b"",
        at: None,
        tail,
        reason: b"",
        end: b"",
    }
}

pub(crate) fn numbered(head: &'static [u8], number: u64, tail: &'static [u8]) -> Parts
    ensures { spelled result ≡ head.now ++ decimal number ++ tail.now }
{
    Parts {
        head,
        file: None,
        middle: b"",
        at: Some(number),
        tail,
        reason: b"",
        end: b"",
    }
}

/// Returns the line of the outcome, and nothing for `Done`. It takes no memory. A line has at most 128 bytes, except that of `Usage`.
pub fn line_of(outcome: &Outcome) -> ArrayVec<u8, ROOM>
    ensures line { result.items ≡ lines.line outcome.now }
    ensures short { IsShort outcome.now (length result.items) }
{
    let parts = outcome.parts();
    let mut first = Buffer::new();
    let mut second = Buffer::new();
    let file = match parts.file {
        Some(file) => first.format(file).as_bytes(),
        None => b"".as_slice(),
    };
    let at = match parts.at {
        Some(at) => second.format(at).as_bytes(),
        None => b"".as_slice(),
    };
    joined(&[
        parts.head,
        file,
        parts.middle,
        at,
        parts.tail,
        parts.reason,
        parts.end,
    ])
}

/// Writes the line of the outcome, at once, and nothing for `Done`. It takes no memory.
pub fn write_line<E: Sink>(outcome: &Outcome, complaints: &mut E) -> Result<(), Failed>
    ensures ok { OnOk result (Appends (E.written complaints.old) (E.written complaints.new) (lines.line outcome.now)) }
    ensures prefix { OnErr result (AppendsFront (E.written complaints.old) (E.written complaints.new) (lines.line outcome.now)) }
    ensures cause { Counts (E.faults complaints.old) (E.faults complaints.new) (IsErr result) }
{
    write_all(complaints, line_of(outcome).as_slice())
}
