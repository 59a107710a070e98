//! The texts that outcomes of a request are about.
ghost use Rattle.std.specs.Prelude.{◌≡◌, [], codes, map, option_map, unwrap_or};
ghost use Rattle.people_complaints.specs.Subjects.{about, entry_or, file_at, program, texts_seen};

use crate::composing::NamedText;
use base_texts::Text;
use transcode_words::Outcome;

/// The texts of a request: its files with the contents that were loaded, the root, the input with what was read of it, and the output.
#[derive(Clone, Copy)]
pub struct Subjects<'a> {
    pub files: &'a [Text],
    pub loaded: &'a [Vec<u8>],
    pub root: Option<&'a str>,
    pub input: Option<&'a str>,
    pub read: &'a [u8],
    pub output: Option<&'a str>,
}

const PROGRAM: &str = "ruvkhiska";

// Returns the name, or the other one if there is none.
fn name_or<'a>(name: Option<&'a str>, other: &'a str) -> &'a str
    ensures { result.now ≡ unwrap_or (option_map (λ name. name.now) name.entry) other.entry.now }
{
    match name {
        Some(name) => name,
        None => other,
    }
}

// Returns the name at this place, from 0.
fn name_at(names: &[Text], at: usize) -> &str
    ensures { result.now ≡ entry_or program names.now at }
{
    match names.get(at) {
        Some(name) => name.as_str(),
        None => PROGRAM,
    }
}

// Returns the contents at this place, from 0. They are empty if none are kept.
fn contents_at(loaded: &[Vec<u8>], at: usize) -> &[u8]
    ensures { result.now ≡ entry_or [] (map (λ contents. contents.items) loaded.now) at }
{
    match loaded.get(at) {
        Some(contents) => contents.as_slice(),
        None => b"",
    }
}

fn named<'a>(name: &'a str, contents: &'a [u8]) -> NamedText<'a>
    ensures { (result.name.now ≡ name.entry.now) × (result.contents.now ≡ contents.entry.now) }
{
    NamedText { name, contents }
}

impl<'a> Subjects<'a> {
    // Returns the file with this number, from 1.
    fn file(self, number: u32) -> NamedText<'a>
        ensures name { result.name.now ≡ (file_at (texts_seen self.entry) number).0 }
        ensures contents { result.contents.now ≡ (file_at (texts_seen self.entry) number).1 }
    {
        let at = (number as usize).saturating_sub(1);
        named(name_at(self.files, at), contents_at(self.loaded, at))
    }

    /// Returns the text that the outcome is about.
    pub fn of(self, outcome: Outcome) -> NamedText<'a>
        ensures name { result.name.now ≡ (about (texts_seen self.entry) outcome).0 }
        ensures contents { result.contents.now ≡ (about (texts_seen self.entry) outcome).1 }
    {
        match outcome {
            Outcome::SchemaSyntax { file, .. }
            | Outcome::SchemaFault { file, .. }
            | Outcome::LinkFault { file, .. }
            | Outcome::LoadFault { file } => self.file(file),
            Outcome::ModuleFault { .. } => self.file(1),
            Outcome::TooLong { file } if file > 0 => self.file(file),
            Outcome::Stamp
            | Outcome::DocSyntax { .. }
            | Outcome::Invalid { .. }
            | Outcome::PerFault { .. }
            | Outcome::RecordFault { .. }
            | Outcome::DerFault { .. }
            | Outcome::Trailing { .. }
            | Outcome::TooLong { .. }
            | Outcome::TooManyNodes { .. }
            | Outcome::ReadFault => named(name_or(self.input, "input"), self.read),
            Outcome::WriteFault => named(name_or(self.output, "output"), b""),
            Outcome::UnknownRoot => named(name_or(self.root, PROGRAM), b""),
            Outcome::Done | Outcome::Usage | Outcome::OutOfMemory => named(PROGRAM, b""),
        }
    }
}
