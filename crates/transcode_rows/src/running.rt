//! Runs a row, and compares its result with the required one.

use crate::error::LineError;
use crate::row::{Call, Calls, Due, Row};
use base_texts::{MemoryLibrary, MemorySink, MemorySource};
use std::alloc::Global;
use transcode_core::{Environment, run_in};

// What came of a row.
#[derive(Drop)]
struct Answer {
    status: u8,
    complaint: Vec<u8>,
    output: Vec<u8>,
}

// Room for more than any complaint.
const LINE_ROOM: usize = 1_000;

// A sink of that room, which takes pieces and fails as told.
fn sink(alloc: Global, room: usize, calls: Calls) -> Result<MemorySink, LineError> {
    if !calls.pieces.iter().all(|size| 0 < *size) {
        return Err(LineError::EmptyPiece);
    }
    Ok(MemorySink::new(alloc, room, calls.fails, calls.pieces)?)
}

// A source of these bytes, which gives pieces and fails as told.
fn source(contents: Vec<u8>, calls: Calls) -> Result<MemorySource, LineError> {
    if !calls.pieces.iter().all(|size| 0 < *size) {
        return Err(LineError::EmptyPiece);
    }
    Ok(MemorySource::new(contents, calls.fails, calls.pieces))
}

// Calls `run_in` as the row says.
fn call_run(alloc: Global, call: Call) -> Result<Answer, LineError> {
    let Call {
        words,
        files,
        input,
        loads,
        reads,
        writes,
        complaints,
        room,
    } = call;
    let mut files = MemoryLibrary::new(files, loads.fails);
    let mut input = source(input, reads)?;
    let mut output = sink(alloc, room, writes)?;
    let mut complaints = sink(alloc, LINE_ROOM, complaints)?;
    let outcome = run_in(
        alloc,
        &words,
        Environment {
            files: &mut files,
            input: &mut input,
            output: &mut output,
            complaints: &mut complaints,
        },
    );
    Ok(Answer {
        status: outcome.status(),
        complaint: complaints.written().to_vec(alloc)?,
        output: output.written().to_vec(alloc)?,
    })
}

// Whether the complaint is this line, or is nothing where the line is empty.
fn is_line(complaint: &[u8], line: &str) -> bool {
    match complaint.strip_suffix(b"\n") {
        Some(front) => front == line.as_bytes(),
        None => complaint.is_empty() && line.is_empty(),
    }
}

fn is_due(answer: &Answer, due: &Due) -> bool {
    answer.status == due.status
        && is_line(&answer.complaint, due.complaint.as_str())
        && answer.output == due.output
}

// Prints bytes as a text where they are one, else in hexadecimal.
fn print_bytes(rt: &(impl Print + AllocGlobal), what: &str, bytes: &[u8]) -> anyhow::Result<()> {
    match std::str::from_utf8(bytes) {
        Ok(text) => println!(rt; "  {what}: {text}")?,
        Err(_) => {
            let digits = hex::encode(rt.alloc(), bytes)?;
            println!(rt; "  {what}: {digits}")?;
        }
    }
    Ok(())
}

/// Runs a row, and prints its result and the required one where they differ.
pub fn passes(rt: &(impl Print + AllocGlobal), row: Row<'_>) -> anyhow::Result<bool> {
    let answer = call_run(rt.alloc(), row.call)?;
    if is_due(&answer, &row.due) {
        return Ok(true);
    }
    println!(rt; "line {}: {}", row.line, row.name)?;
    println!(rt;
        "  came {}, due {} {}",
        answer.status,
        row.due.status,
        row.due.complaint.as_str()
    )?;
    print_bytes(rt, "complaint", &answer.complaint)?;
    print_bytes(rt, "output", &answer.output)?;
    print_bytes(rt, "output due", &row.due.output)?;
    Ok(false)
}
