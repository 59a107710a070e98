//! The table: its lines to rows.
use crate::error::{LineError, TableError};
use crate::lines::{Piece, marked, numbers, piece_of_line};
use crate::row::{NamedText, Row};
use std::alloc::Global;

// Where the next line of a text belongs.
#[derive(Clone, Copy)]
enum Place {
    Nowhere,
    Text,
    Input,
    Output,
}

// The schema documents of rows stand in these tags.
const HEAD: &str = "<xs:schema xmlns:xs=\"http://www.w3.org/2001/XMLSchema\">";

const END: &str = "</xs:schema>";

// What has been read of the table.
#[derive(Drop)]
struct Table<'a> {
    alloc: Global,
    texts: Vec<NamedText<'a>>,
    rows: Vec<Row<'a>>,
    place: Place,
    /// The place of the last `^` in its text.
    mark: usize,
}

impl<'a> Table<'a> {
    fn row(&mut self) -> Result<&mut Row<'a>, LineError> {
        self.rows.last_mut().ok_or(LineError::NoRow)
    }

    // The text that was begun last.
    fn text(&mut self) -> Result<&mut Vec<u8>, LineError> {
        match self.place {
            Place::Nowhere => Err(LineError::NoPlace),
            Place::Text => {
                let text = self.texts.last_mut().ok_or(LineError::NoPlace)?;
                Ok(&mut text.contents)
            }
            Place::Input => Ok(&mut self.row()?.call.input),
            Place::Output => Ok(&mut self.row()?.due.output),
        }
    }

    // Adds to the text that was begun last.
    fn add_piece(&mut self, piece: Piece) -> Result<(), LineError> {
        let text = self.text()?;
        let before = text.len();
        text.extend_from_slice(&piece.bytes)?;
        self.note_mark(before, &piece);
        Ok(())
    }

    // Notes the place of the mark in a piece with so many bytes before it.
    fn note_mark(&mut self, before: usize, piece: &Piece) {
        if let Some(mark) = piece.mark {
            self.mark = mark.saturating_add(before);
        }
    }

    fn add_line(&mut self, number: usize, line: &'a str) -> Result<(), LineError> {
        if line.is_empty() || line.starts_with('#') {
            return Ok(());
        }
        if let Some(piece) = piece_of_line(self.alloc, &self.texts, line)? {
            return self.add_piece(piece);
        }
        let (keyword, rest) = line.split_once(' ').unwrap_or((line, ""));
        self.place = Place::Nowhere;
        match keyword {
            "file" => self.begin_text(rest),
            "row" => self.begin_row(number, rest),
            "words" => self.add_words(rest),
            "word" => self.add_word(rest),
            "schema" => self.add_schema(rest),
            "input" => self.begin_input(rest),
            "due" => self.begin_output(rest),
            "fails" => self.add_fails(rest),
            "pieces" => self.add_pieces(rest),
            "room" => self.set_room(rest),
            _ => Err(LineError::Unknown),
        }
    }

    fn begin_text(&mut self, name: &'a str) -> Result<(), LineError> {
        self.texts.push(NamedText {
            name,
            contents: Vec::new(self.alloc),
        })?;
        self.place = Place::Text;
        Ok(())
    }

    fn begin_row(&mut self, number: usize, name: &'a str) -> Result<(), LineError> {
        self.rows.push(Row::new(self.alloc, name, number))?;
        Ok(())
    }

    fn add_word(&mut self, word: &str) -> Result<(), LineError> {
        let row = self.rows.last_mut().ok_or(LineError::NoRow)?;
        row.call.add_word(self.alloc, &self.texts, word)
    }

    fn add_words(&mut self, words: &str) -> Result<(), LineError> {
        for word in words.split_whitespace() {
            self.add_word(word)?;
        }
        Ok(())
    }

    fn add_fails(&mut self, rest: &str) -> Result<(), LineError> {
        let (object, rest) = rest.split_once(' ').ok_or(LineError::Unknown)?;
        let fails = numbers(self.alloc, rest)?;
        self.row()?.call.calls(object)?.fails = fails;
        Ok(())
    }

    fn add_pieces(&mut self, rest: &str) -> Result<(), LineError> {
        let (object, rest) = rest.split_once(' ').ok_or(LineError::Unknown)?;
        let pieces = numbers(self.alloc, rest)?;
        self.row()?.call.calls(object)?.pieces = pieces;
        Ok(())
    }

    // A schema document of this row alone, and the word that names it. `show` is the command where none stands before it.
    fn add_schema(&mut self, body: &str) -> Result<(), LineError> {
        let piece = marked(self.alloc, body)?;
        self.note_mark(HEAD.len(), &piece);
        let alloc = self.alloc;
        let row = self.row()?;
        if row.call.words.is_empty() {
            row.call.add_word(alloc, &[], "show")?;
        }
        let mut contents = HEAD.as_bytes().to_vec(alloc)?;
        contents.extend_from_slice(&piece.bytes)?;
        contents.extend_from_slice(END.as_bytes())?;
        row.call.add_file(alloc, contents)
    }

    fn begin_input(&mut self, text: &str) -> Result<(), LineError> {
        let piece = marked(self.alloc, text)?;
        self.place = Place::Input;
        self.add_piece(piece)
    }

    fn begin_output(&mut self, rest: &str) -> Result<(), LineError> {
        let (status, complaint) = rest.split_once(' ').unwrap_or((rest, ""));
        let status = status.parse()?;
        let complaint = match complaint.split_once('^') {
            Some((front, back)) => format!(in self.alloc; "{front}{}{back}", self.mark)?,
            None => complaint.to_string(self.alloc)?,
        };
        let row = self.row()?;
        row.due.status = status;
        row.due.complaint = complaint;
        self.place = Place::Output;
        Ok(())
    }

    fn set_room(&mut self, rest: &str) -> Result<(), LineError> {
        self.row()?.call.room = rest.parse()?;
        Ok(())
    }
}

/// The rows of a table.
pub fn read_table<'a>(alloc: Global, text: &'a str) -> Result<Vec<Row<'a>>, TableError> {
    let mut table = Table {
        alloc,
        texts: Vec::new(alloc),
        rows: Vec::new(alloc),
        place: Place::Nowhere,
        mark: 0,
    };
    let mut number = 0usize;
    for line in text.lines() {
        number = number.saturating_add(1);
        if let Err(why) = table.add_line(number, line) {
            return Err(TableError { line: number, why });
        }
    }
    Ok(table.rows)
}
