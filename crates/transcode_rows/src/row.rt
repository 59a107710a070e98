//! A row: what the call is given, and its required result.
use crate::error::LineError;
use base_texts::{Entry, Text};
use std::alloc::Global;

/// A text with a name, as a file or to be copied.
#[derive(Drop)]
pub struct NamedText<'a> {
    pub name: &'a str,
    pub contents: Vec<u8>,
}

/// Which calls of an object fail, from 1, and how many bytes each moves at most.
#[derive(Drop)]
pub struct Calls {
    pub fails: Vec<u64>,
    pub pieces: Vec<u64>,
}

impl Calls {
    pub fn new(alloc: Global) -> Calls {
        Calls {
            fails: Vec::new(alloc),
            pieces: Vec::new(alloc),
        }
    }
}

/// What a row hands in.
#[derive(Drop)]
pub struct Call {
    pub words: Vec<Text>,
    pub files: Vec<Entry>,
    pub input: Vec<u8>,
    pub loads: Calls,
    pub reads: Calls,
    pub writes: Calls,
    pub complaints: Calls,
    pub room: usize,
}

/// What must come of it.
#[derive(Drop)]
pub struct Due {
    pub status: u8,
    pub complaint: String,
    pub output: Vec<u8>,
}

/// A row of the table, with the number of its first line.
#[derive(Drop)]
pub struct Row<'a> {
    pub name: &'a str,
    pub line: usize,
    pub call: Call,
    pub due: Due,
}

// Room for more than any row writes.
const ROOM: usize = 100_000;

impl Call {
    pub fn new(alloc: Global) -> Call {
        Call {
            words: Vec::new(alloc),
            files: Vec::new(alloc),
            input: Vec::new(alloc),
            loads: Calls::new(alloc),
            reads: Calls::new(alloc),
            writes: Calls::new(alloc),
            complaints: Calls::new(alloc),
            room: ROOM,
        }
    }

    /// Adds a word, and with it the file of that name.
    pub fn add_word(
        &mut self,
        alloc: Global,
        texts: &[NamedText<'_>],
        word: &str,
    ) -> Result<(), LineError> {
        if let Some(contents) = find_text(texts, word) {
            let name = Text::from_str(alloc, word)?;
            self.files.push(Entry::of(name, contents.to_vec(alloc)?))?;
        }
        self.words.push(Text::from_str(alloc, word)?)?;
        Ok(())
    }

    /// Adds a file under a name that no other has, and a word for it.
    pub fn add_file(&mut self, alloc: Global, contents: Vec<u8>) -> Result<(), LineError> {
        let name = format!(in alloc; "schema {}", self.files.len())?;
        let entry = Entry::of(Text::from_str(alloc, name.as_str())?, contents);
        self.files.push(entry)?;
        self.words.push(Text::from_str(alloc, name.as_str())?)?;
        Ok(())
    }

    /// The calls of the object that a line names.
    pub fn calls(&mut self, object: &str) -> Result<&mut Calls, LineError> {
        match object {
            "load" => Ok(&mut self.loads),
            "read" => Ok(&mut self.reads),
            "write" => Ok(&mut self.writes),
            "complain" => Ok(&mut self.complaints),
            _ => Err(LineError::NoObject),
        }
    }
}

impl<'a> Row<'a> {
    pub fn new(alloc: Global, name: &'a str, line: usize) -> Row<'a> {
        Row {
            name,
            line,
            call: Call::new(alloc),
            due: Due {
                status: 0,
                complaint: String::new(alloc),
                output: Vec::new(alloc),
            },
        }
    }
}

/// The latest text of that name.
pub fn find_text<'t>(texts: &'t [NamedText<'_>], name: &str) -> Option<&'t [u8]> {
    for text in texts.iter().rev() {
        if text.name == name {
            return Some(&text.contents);
        }
    }
    None
}
