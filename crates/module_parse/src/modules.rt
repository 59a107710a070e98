//! Modules.
ghost use Rattle.std.specs.Prelude.{◌≡◌, ◌≤◌, length};
ghost use Rattle.module_text.specs.Plain as plain;
ghost use Rattle.module_grammar.specs.Reading.{many_at};
ghost use Rattle.module_grammar.specs.Reached.{reach, StaysWithin};
ghost use Rattle.module_grammar.specs.ModuleReading.{assignment_at, module_at};
ghost use Rattle.module_parse.specs.Reads.{Reads, ReadsList, Stays, Moves};
ghost use Rattle.module_parse.specs.Parsed.{Parses};

use crate::forms::body;
use crate::marks::part_marks;
use crate::names::reference;
use crate::steps::{again, literal};
use base_texts::Memory;
use module_grammar::{Reach, Stop};
use module_text::PlainAssignment;
use std::alloc::Global;

// The greatest nesting depth of types, and that of values.
const LIMIT: u32 = 1024;

fn limit() -> u32
    ensures { result ≡ plain.limit }
{
    LIMIT
}

const OPENING: &[u8] = b"Schema-Set DEFINITIONS XER INSTRUCTIONS AUTOMATIC TAGS ::= BEGIN\n";

const CLOSING: &[u8] =
    b"ENCODING-CONTROL XER\n    GLOBAL-DEFAULTS MODIFIED-ENCODINGS\n    GLOBAL-DEFAULTS CONTROL-NAMESPACE \"http://www.w3.org/2001/XMLSchema-instance\" PREFIX \"xsi\"\nEND\n";

/// What bytes are.
#[derive(Drop)]
pub enum Finding {
    /// They are the text of these assignments.
    Module { assignments: Vec<PlainAssignment> },
    /// They are not a text: the first `at` of them begin one, and no more do.
    Syntax { at: usize },
    /// They begin a text in which a type or a value that is nested too deep begins here.
    TooDeep { at: usize },
}

fn assignment(
    alloc: Global,
    most: u32,
    bytes: &[u8],
    from: Reach,
) -> Result<(PlainAssignment, Reach), Stop>
    requires { from.at ≤ length bytes.now }
    ensures value { Reads (assignment_at most) bytes.now from result }
    ensures within { Moves (length bytes.now) from result }
{
    let (reference, end) = reference(alloc, bytes, from)?;
    let start = literal(b" ::= ", bytes, end)?;
    let (marks, behind) = part_marks(alloc, bytes, start)?;
    let (body, end) = body(alloc, most, bytes, behind)?;
    let next = literal(b"\n", bytes, end)?;
    Ok((
        PlainAssignment {
            at: from.at as u64,
            reference,
            marks,
            body,
        },
        next,
    ))
}

// Reads all assignments that there are.
fn assignments(
    alloc: Global,
    most: u32,
    bytes: &[u8],
    from: Reach,
) -> Result<(Vec<PlainAssignment>, Reach), Stop>
    requires { from.at ≤ length bytes.now }
    ensures value { ReadsList (many_at (assignment_at most)) bytes.now from result }
    ensures within { Stays (length bytes.now) from result }
{
    let mut assignments = Vec::new(alloc);
    let mut next = from;
    'assignments: loop {
        match assignment(alloc, most, bytes, next) {
            Ok((assignment, behind)) => {
                assignments.push(assignment)?;
                next = behind;
            }
            Err(stop) => {
                let end = again(next, stop)?;
                return Ok((assignments, end));
            }
        }
    }
}

fn module(alloc: Global, most: u32, bytes: &[u8]) -> Result<(Vec<PlainAssignment>, Reach), Stop>
    ensures value { ReadsList (module_at most) bytes.now (reach 0 0) result }
    ensures within { StaysWithin (length bytes.now) result }
{
    let inside = literal(OPENING, bytes, Reach { at: 0, far: 0 })?;
    let (assignments, end) = assignments(alloc, most, bytes, inside)?;
    let next = literal(CLOSING, bytes, end)?;
    Ok((assignments, next))
}

/// Returns what these bytes are, of which there are at most 16 MiB. The only error is a failed allocation.
///
/// The time is linear in their number. Recursion is bounded by the greatest nesting depth of types and values.
pub fn parse(alloc: Global, bytes: &[u8]) -> Result<Finding, Memory>
    requires { length bytes.now ≤ 16777216 }
    ensures { Parses bytes.now result }
{
    match module(alloc, limit(), bytes) {
        Ok((assignments, next)) => {
            if next.at == bytes.len() {
                Ok(Finding::Module { assignments })
            } else {
                Ok(Finding::Syntax { at: next.far })
            }
        }
        Err(Stop::Fails { far }) => Ok(Finding::Syntax { at: far }),
        Err(Stop::Deep { at, far: _ }) => Ok(Finding::TooDeep { at }),
        Err(Stop::Memory) => Err(Memory),
    }
}
