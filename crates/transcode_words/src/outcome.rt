//! What a call of the program ends with.
ghost use Rattle.std.specs.Prelude.{◌≡◌, ◌++◌, codes, length};
ghost use Rattle.link_names.specs.Reasons.{own_name};
ghost use Rattle.transcode_words.specs.Lines as lines;
ghost use Rattle.transcode_words.specs.Lines.{IsShort};
ghost use Rattle.transcode_words.specs.Private.Parts.{spelled};
ghost use Rattle.transcode_words.specs.Status.{status, IsNamed};

use crate::lines::{Parts, numbered, of_file, plain};
use base_texts::Reason;
use der_fields::Why as DerWhy;
use link_names::LinkWhy;
use module_text::ModuleWhy;
use per_fields::Why;
use schema_syntax::SchemaWhy;
use validity_rules::InvalidWhy;
use xml_read::DocWhy;

/// What a call of the program ends with. Files are numbered from 1 in the order of the words; number 0 is the input.
#[derive(Clone, Copy)]
pub enum Outcome {
    /// The complete result was written.
    Done,
    /// The words are no request.
    Usage,
    /// The first fault of the text of a schema file, at this byte.
    SchemaSyntax { file: u32, at: u64, why: DocWhy },
    /// The first fault of a schema document, at this byte.
    SchemaFault { file: u32, at: u64, why: SchemaWhy },
    /// The first fault of the schema files as one set, at this byte of this file.
    LinkFault { file: u32, at: u64, why: LinkWhy },
    /// No global element has the name of the root.
    UnknownRoot,
    /// The input doesn't begin with the stamp of the set.
    Stamp,
    /// The first fault of the text of the input, at this byte.
    DocSyntax { at: u64, why: DocWhy },
    /// The document in the input isn't valid: its first fault, at this byte.
    Invalid { at: u64, why: InvalidWhy },
    /// The input is no encoding: its first fault, in the field that begins at this bit.
    PerFault { bit: u64, why: Why },
    /// The input is no encoding in DER: its first fault, at this byte.
    DerFault { at: u64, why: DerWhy },
    /// The file is no printed module: its first fault, at this byte.
    ModuleFault { at: u64, why: ModuleWhy },
    /// An encoding ends before this byte of the input.
    Trailing { at: u64 },
    /// The record with this number, counted from 1, is no encoding: its first fault, in the field that begins at this bit of
    /// the record.
    RecordFault { number: u64, bit: u64, why: Why },
    /// The file has more than 16,777,216 bytes.
    TooLong { file: u32 },
    /// The document is valid, but its value has this number of nodes, more than 1,048,576.
    TooManyNodes { count: u64 },
    /// The file could not be loaded.
    LoadFault { file: u32 },
    /// The input could not be read.
    ReadFault,
    /// The result could not be written in full.
    WriteFault,
    /// Out of memory.
    OutOfMemory,
}

// The word that precedes the name of a reason against several files as one set.
fn before_link(why: LinkWhy) -> &'static [u8]
    ensures { result.now ++ own_name why ≡ codes ": link: " ++ lines.link_reason why }
{
    match why {
        LinkWhy::Facet(_) => b": link: Facet ",
        _ => b": link: ",
    }
}

impl Outcome {
    /// The exit status.
    pub fn status(&self) -> u8
        ensures { result ≡ status self.now }
    {
        match self {
            Outcome::Done => 0,
            Outcome::Usage => 2,
            Outcome::SchemaSyntax { .. } => 3,
            Outcome::SchemaFault { .. } => 4,
            Outcome::LinkFault { .. } => 5,
            Outcome::UnknownRoot => 6,
            Outcome::DocSyntax { .. } => 7,
            Outcome::Invalid { .. } => 8,
            Outcome::Stamp | Outcome::PerFault { .. } => 9,
            Outcome::Trailing { .. } => 10,
            Outcome::TooLong { .. } => 11,
            Outcome::TooManyNodes { .. } => 12,
            Outcome::DerFault { .. } => 13,
            Outcome::ModuleFault { .. } => 14,
            Outcome::RecordFault { .. } => 15,
            Outcome::LoadFault { .. } => 20,
            Outcome::ReadFault => 21,
            Outcome::WriteFault => 22,
            Outcome::OutOfMemory => 30,
        }
    }

    /// Returns the line as its parts.
    pub(crate) fn parts(self) -> Parts
        ensures line { spelled result ≡ lines.line self }
        ensures short { IsShort self (length (lines.line self)) }
    {
        match self {
            Outcome::Done => plain(b""),
            Outcome::Usage => plain(
                b"usage: show FILE... | check ROOT FILE... | to-per ROOT FILE... | to-xml ROOT FILE... | trial N | to-per-u ROOT FILE... | to-xml-u ROOT FILE... | to-der ROOT FILE... | from-der ROOT FILE... | show-back FILE | each-to-xml ROOT FILE...\n",
            ),
            Outcome::SchemaSyntax { file, at, why } => Parts {
                head: b"file ",
                file: Some(u64::from(file)),
                middle: b", byte ",
                at: Some(at),
                tail: b": syntax: ",
                reason: why.reason().name.as_bytes(),
                end: b"\n",
            },
            Outcome::SchemaFault { file, at, why } => Parts {
                head: b"file ",
                file: Some(u64::from(file)),
                middle: b", byte ",
                at: Some(at),
                tail: b": schema: ",
                reason: why.reason().name.as_bytes(),
                end: b"\n",
            },
            Outcome::LinkFault { file, at, why } => Parts {
                head: b"file ",
                file: Some(u64::from(file)),
                middle: b", byte ",
                at: Some(at),
                tail: before_link(why),
                reason: why.reason().name.as_bytes(),
                end: b"\n",
            },
            Outcome::UnknownRoot => plain(b"unknown root\n"),
            Outcome::Stamp => plain(b"input: another stamp\n"),
            Outcome::DocSyntax { at, why } => Parts {
                head: b"input, byte ",
                file: None,
                middle: b"",
                at: Some(at),
                tail: b": syntax: ",
                reason: why.reason().name.as_bytes(),
                end: b"\n",
            },
            Outcome::Invalid { at, why } => Parts {
                head: b"input, byte ",
                file: None,
                middle: b"",
                at: Some(at),
                tail: b": invalid: ",
                reason: why.reason().name.as_bytes(),
                end: b"\n",
            },
            Outcome::PerFault { bit, why } => Parts {
                head: b"input, bit ",
                file: None,
                middle: b"",
                at: Some(bit),
                tail: b": per: ",
                reason: why.reason().name.as_bytes(),
                end: b"\n",
            },
            Outcome::RecordFault { number, bit, why } => Parts {
                head: b"record ",
                file: Some(number),
                middle: b", bit ",
                at: Some(bit),
                tail: b": per: ",
                reason: why.reason().name.as_bytes(),
                end: b"\n",
            },
            Outcome::DerFault { at, why } => Parts {
                head: b"input, byte ",
                file: None,
                middle: b"",
                at: Some(at),
                tail: b": der: ",
                reason: why.reason().name.as_bytes(),
                end: b"\n",
            },
            Outcome::ModuleFault { at, why } => Parts {
                head: b"file 1, byte ",
                file: None,
                middle: b"",
                at: Some(at),
                tail: b": module: ",
                reason: why.reason().name.as_bytes(),
                end: b"\n",
            },
            Outcome::Trailing { at } => numbered(b"input, byte ", at, b": trailing\n"),
            Outcome::TooManyNodes { count } => numbered(b"value of ", count, b" nodes: too many\n"),
            Outcome::TooLong { file: 0 } => plain(b"input: too long\n"),
            Outcome::TooLong { file } => of_file(file, b": too long\n"),
            Outcome::LoadFault { file } => of_file(file, b": load failed\n"),
            Outcome::ReadFault => plain(b"input: read failed\n"),
            Outcome::WriteFault => plain(b"output: write failed\n"),
            Outcome::OutOfMemory => plain(b"out of memory\n"),
        }
    }

    /// Returns the row of its reason, or a row of its own.
    pub fn reason(self) -> Reason
        ensures { IsNamed self result.name.now }
    {
        match self {
            Outcome::SchemaSyntax { why, .. } | Outcome::DocSyntax { why, .. } => why.reason(),
            Outcome::SchemaFault { why, .. } => why.reason(),
            Outcome::LinkFault { why, .. } => why.reason(),
            Outcome::Invalid { why, .. } => why.reason(),
            Outcome::PerFault { why, .. } | Outcome::RecordFault { why, .. } => why.reason(),
            Outcome::DerFault { why, .. } => why.reason(),
            Outcome::ModuleFault { why, .. } => why.reason(),
            Outcome::Done => Reason {
                name: "Done",
                means: "the complete result was written",
                remedy: "none is needed",
            },
            Outcome::Usage => Reason {
                name: "Usage",
                means: "the arguments are not a command",
                remedy: "ruvkhiska --help lists the commands; a root is name or {namespace}name, and there are 1 to 64 files",
            },
            Outcome::UnknownRoot => Reason {
                name: "UnknownRoot",
                means: "no global element of the schemas has this name",
                remedy: "--root with one of the names below; ROOT is {namespace}name where the schema has a namespace",
            },
            Outcome::Stamp => Reason {
                name: "Stamp",
                means: "these octets don't begin with the stamp of these schemas: others wrote them",
                remedy: "read them with the schemas that they were written with; show --stamp prints the stamp",
            },
            Outcome::Trailing { .. } => Reason {
                name: "Trailing",
                means: "bytes follow the encoding",
                remedy: "split the input into messages first",
            },
            Outcome::TooLong { .. } => Reason {
                name: "TooLong",
                means: "it has over 16,777,216 bytes",
                remedy: "split it",
            },
            Outcome::TooManyNodes { .. } => Reason {
                name: "TooManyNodes",
                means: "the document is valid, but its value has over 1,048,576 nodes",
                remedy: "split the message",
            },
            Outcome::LoadFault { .. } => Reason {
                name: "LoadFault",
                means: "it can't be opened or read",
                remedy: "fix the path, or the permission to read it",
            },
            Outcome::ReadFault => Reason {
                name: "ReadFault",
                means: "it can't be opened or read",
                remedy: "fix the path, or the permission to read it",
            },
            Outcome::WriteFault => Reason {
                name: "WriteFault",
                means: "it can't be written completely",
                remedy: "check that its folder exists and that its disk has room; discard what was written to a pipe",
            },
            Outcome::OutOfMemory => Reason {
                name: "OutOfMemory",
                means: "there is not enough memory",
                remedy: "give it more; docs/reference/LIMITS.md lists what it needs",
            },
        }
    }
}
