//! Why a table can't be read, or its rows can't be run.
use base_texts::Memory;
use std::alloc::AllocError;
use std::num::ParseIntError;
use thiserror::Error;

/// What is wrong with a line of the table.
#[derive(Debug, Drop, Error)]
pub enum LineError {
    #[error("no such line")]
    Unknown,
    #[error("it belongs to a row, and none has begun")]
    NoRow,
    #[error("a text may not stand here")]
    NoPlace,
    #[error("no text has this name")]
    NoText,
    #[error("these are no octets")]
    NoOctets,
    #[error("no calls of such an object")]
    NoObject,
    #[error("a piece has a byte at least")]
    EmptyPiece,
    #[error("a number is missing or is none")]
    Number(#[from] ParseIntError),
    #[error(transparent)]
    Alloc(#[from(alloc)] AllocError),
    #[error(transparent)]
    Memory(#[from] Memory),
}

/// A fault of the table, with the number of its line.
#[derive(Debug, Drop, Error)]
#[error("line {line}: {why}")]
pub struct TableError {
    pub line: usize,
    pub why: LineError,
}
