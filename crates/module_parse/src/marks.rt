//! Encoding instructions.
ghost use Rattle.std.specs.Prelude.{◌≤◌, length};
ghost use Rattle.module_grammar.specs.Reading.{many_at, sunk_at};
ghost use Rattle.module_grammar.specs.MarkReading.{word_kind_at, name_as_at, name_mark_at, namespace_at, white_space_at, text_mark_at, part_marks_at, type_marks_at, own_mark_at};
ghost use Rattle.module_grammar.specs.TypeReading.{Typed, start_at};
ghost use Rattle.module_parse.specs.Reads.{Reads, ReadsMore, Finds, IsStopped, Stays, Moves};
ghost use Rattle.module_parse.specs.Readers.{part_kind_at, part_mark_at, type_kind_at, type_mark_at};

use crate::names::{identifier, quoted};
use crate::steps::{ByteClass, again, byte, literal, nothing};
use module_grammar::{Reach, Stop};
use module_text::{NameAs, PartMark, PartMarkKind, PlainList, TypeMark, TypeMarkKind};
use std::alloc::Global;

// Reads CAPITALIZED, UNCAPITALIZED or a quoted text.
fn name_as(alloc: Global, bytes: &[u8], from: Reach) -> Result<(NameAs, Reach), Stop>
    requires { from.at ≤ length bytes.now }
    ensures value { Reads name_as_at bytes.now from result }
    ensures within { Moves (length bytes.now) from result }
{
    let small = match literal(b" AS CAPITALIZED", bytes, from) {
        Ok(next) => return Ok((NameAs::Capitalized, next)),
        Err(stop) => again(from, stop)?,
    };
    let other = match literal(b" AS UNCAPITALIZED", bytes, small) {
        Ok(next) => return Ok((NameAs::Uncapitalized, next)),
        Err(stop) => again(small, stop)?,
    };
    let text = literal(b" AS ", bytes, other)?;
    let (name, next) = quoted(alloc, bytes, text)?;
    Ok((NameAs::Quoted { name }, next))
}

// The ranks of the instructions of parts, in their order.
#[derive(Clone, Copy)]
enum PartRank {
    Attribute,
    Untagged,
    Name,
    Namespace,
}

const PART_RANKS: [PartRank; 4] = [
    PartRank::Attribute,
    PartRank::Untagged,
    PartRank::Name,
    PartRank::Namespace,
];

fn name_mark(alloc: Global, bytes: &[u8], from: Reach) -> Result<(PartMarkKind, Reach), Stop>
    requires { from.at ≤ length bytes.now }
    ensures value { Reads name_mark_at bytes.now from result }
    ensures within { Moves (length bytes.now) from result }
{
    let inside = literal(b"[NAME", bytes, from)?;
    let (name, end) = name_as(alloc, bytes, inside)?;
    let next = literal(b"]", bytes, end)?;
    Ok((PartMarkKind::Name { name }, next))
}

fn namespace_mark(alloc: Global, bytes: &[u8], from: Reach) -> Result<(PartMarkKind, Reach), Stop>
    requires { from.at ≤ length bytes.now }
    ensures value { Reads namespace_at bytes.now from result }
    ensures within { Moves (length bytes.now) from result }
{
    let inside = literal(b"[NAMESPACE AS ", bytes, from)?;
    let (space, end) = quoted(alloc, bytes, inside)?;
    let next = literal(b"]", bytes, end)?;
    Ok((PartMarkKind::Namespace { space }, next))
}

// Reads an instruction up to the bracket.
fn part_mark_kind(
    alloc: Global,
    rank: PartRank,
    bytes: &[u8],
    from: Reach,
) -> Result<(PartMarkKind, Reach), Stop>
    requires { from.at ≤ length bytes.now }
    ensures value { Reads (part_kind_at rank) bytes.now from result }
    ensures within { Moves (length bytes.now) from result }
{
    match rank {
        PartRank::Attribute => {
            let next = literal(b"[ATTRIBUTE]", bytes, from)?;
            Ok((PartMarkKind::Attribute, next))
        }
        PartRank::Untagged => {
            let next = literal(b"[UNTAGGED]", bytes, from)?;
            Ok((PartMarkKind::Untagged, next))
        }
        PartRank::Name => name_mark(alloc, bytes, from),
        PartRank::Namespace => namespace_mark(alloc, bytes, from),
    }
}

fn part_mark(
    alloc: Global,
    rank: PartRank,
    bytes: &[u8],
    from: Reach,
) -> Result<(PartMark, Reach), Stop>
    requires { from.at ≤ length bytes.now }
    ensures value { Reads (part_mark_at rank) bytes.now from result }
    ensures within { Moves (length bytes.now) from result }
{
    let (kind, end) = part_mark_kind(alloc, rank, bytes, from)?;
    let next = literal(b" ", bytes, end)?;
    Ok((
        PartMark {
            at: from.at as u64,
            kind,
        },
        next,
    ))
}

// Reads any number of instructions of this rank, after others.
fn more_part_marks(
    alloc: Global,
    rank: PartRank,
    marks: Vec<PartMark>,
    bytes: &[u8],
    from: Reach,
) -> Result<(Vec<PartMark>, Reach), Stop>
    requires { from.at ≤ length bytes.now }
    ensures value { ReadsMore marks.items (many_at (part_mark_at rank)) bytes.now from result }
    ensures within { Stays (length bytes.now) from result }
{
    let mut marks = marks;
    let mut next = from;
    'marks: loop {
        match part_mark(alloc, rank, bytes, next) {
            Ok((mark, behind)) => {
                marks.push(mark)?;
                next = behind;
            }
            Err(stop) => {
                let end = again(next, stop)?;
                return Ok((marks, end));
            }
        }
    }
}

/// Reads the instructions of a part or an assignment, in the order of their ranks.
pub fn part_marks(
    alloc: Global,
    bytes: &[u8],
    from: Reach,
) -> Result<(PlainList<PartMark>, Reach), Stop>
    requires { from.at ≤ length bytes.now }
    ensures value { Reads part_marks_at bytes.now from result }
    ensures within { Stays (length bytes.now) from result }
{
    let mut marks = Vec::new(alloc);
    let mut next = from;
    'ranks: for rank in PART_RANKS {
        let (more, behind) = more_part_marks(alloc, rank, marks, bytes, next)?;
        marks = more;
        next = behind;
    }
    Ok((PlainList::of(marks), nothing(next)))
}

// The ranks of the instructions of types, in their order.
#[derive(Clone, Copy)]
enum TypeRank {
    UseNil,
    EmbedValues,
    UseOrder,
    List,
    UseUnion,
    UseNumber,
    WhiteSpace,
    Text,
}

const TYPE_RANKS: [TypeRank; 8] = [
    TypeRank::UseNil,
    TypeRank::EmbedValues,
    TypeRank::UseOrder,
    TypeRank::List,
    TypeRank::UseUnion,
    TypeRank::UseNumber,
    TypeRank::WhiteSpace,
    TypeRank::Text,
];

// The ranks that precede TEXT.
const EARLIER_RANKS: [TypeRank; 7] = [
    TypeRank::UseNil,
    TypeRank::EmbedValues,
    TypeRank::UseOrder,
    TypeRank::List,
    TypeRank::UseUnion,
    TypeRank::UseNumber,
    TypeRank::WhiteSpace,
];

fn white_space_mark(bytes: &[u8], from: Reach) -> Result<(TypeMarkKind, Reach), Stop>
    requires { from.at ≤ length bytes.now }
    ensures value { Reads white_space_at bytes.now from result }
    ensures within { Moves (length bytes.now) from result }
{
    let other = match literal(b"[WHITESPACE REPLACE]", bytes, from) {
        Ok(next) => return Ok((TypeMarkKind::Replace, next)),
        Err(stop) => again(from, stop)?,
    };
    let next = literal(b"[WHITESPACE COLLAPSE]", bytes, other)?;
    Ok((TypeMarkKind::Collapse, next))
}

fn text_mark(alloc: Global, bytes: &[u8], from: Reach) -> Result<(TypeMarkKind, Reach), Stop>
    requires { from.at ≤ length bytes.now }
    ensures value { Reads text_mark_at bytes.now from result }
    ensures within { Moves (length bytes.now) from result }
{
    let inside = literal(b"[TEXT:", bytes, from)?;
    let (identifier, behind) = identifier(alloc, bytes, inside)?;
    let (text, end) = name_as(alloc, bytes, behind)?;
    let next = literal(b"]", bytes, end)?;
    Ok((TypeMarkKind::Text { identifier, text }, next))
}

// Reads an instruction that consists of this word.
fn plain_mark(
    word: &[u8],
    kind: TypeMarkKind,
    bytes: &[u8],
    from: Reach,
) -> Result<(TypeMarkKind, Reach), Stop>
    requires { from.at ≤ length bytes.now }
    ensures value { Reads (word_kind_at kind word.now) bytes.now from result }
    ensures within { Stays (length bytes.now) from result }
{
    let next = literal(word, bytes, from)?;
    Ok((kind, next))
}

// Reads an instruction up to the bracket.
fn type_mark_kind(
    alloc: Global,
    rank: TypeRank,
    bytes: &[u8],
    from: Reach,
) -> Result<(TypeMarkKind, Reach), Stop>
    requires { from.at ≤ length bytes.now }
    ensures value { Reads (type_kind_at rank) bytes.now from result }
    ensures within { Stays (length bytes.now) from result }
{
    match rank {
        TypeRank::UseNil => plain_mark(b"[USE-NIL]", TypeMarkKind::UseNil, bytes, from),
        TypeRank::EmbedValues => plain_mark(
            b"[EMBED-VALUES]",
            TypeMarkKind::EmbedValues,
            bytes,
            from,
        ),
        TypeRank::UseOrder => plain_mark(b"[USE-ORDER]", TypeMarkKind::UseOrder, bytes, from),
        TypeRank::List => plain_mark(b"[LIST]", TypeMarkKind::List, bytes, from),
        TypeRank::UseUnion => plain_mark(b"[USE-UNION]", TypeMarkKind::UseUnion, bytes, from),
        TypeRank::UseNumber => plain_mark(b"[USE-NUMBER]", TypeMarkKind::UseNumber, bytes, from),
        TypeRank::WhiteSpace => white_space_mark(bytes, from),
        TypeRank::Text => text_mark(alloc, bytes, from),
    }
}

fn type_mark(
    alloc: Global,
    rank: TypeRank,
    bytes: &[u8],
    from: Reach,
) -> Result<(TypeMark, Reach), Stop>
    requires { from.at ≤ length bytes.now }
    ensures value { Reads (type_mark_at rank) bytes.now from result }
    ensures within { Moves (length bytes.now) from result }
{
    let (kind, end) = type_mark_kind(alloc, rank, bytes, from)?;
    let next = literal(b" ", bytes, end)?;
    Ok((
        TypeMark {
            at: from.at as u64,
            kind,
        },
        next,
    ))
}

// Reads any number of instructions of this rank, after others.
fn more_type_marks(
    alloc: Global,
    rank: TypeRank,
    marks: Vec<TypeMark>,
    bytes: &[u8],
    from: Reach,
) -> Result<(Vec<TypeMark>, Reach), Stop>
    requires { from.at ≤ length bytes.now }
    ensures value { ReadsMore marks.items (many_at (type_mark_at rank)) bytes.now from result }
    ensures within { Stays (length bytes.now) from result }
{
    let mut marks = marks;
    let mut next = from;
    'marks: loop {
        match type_mark(alloc, rank, bytes, next) {
            Ok((mark, behind)) => {
                marks.push(mark)?;
                next = behind;
            }
            Err(stop) => {
                let end = again(next, stop)?;
                return Ok((marks, end));
            }
        }
    }
}

/// Reads the instructions of a type, in the order of their ranks.
pub fn type_marks(
    alloc: Global,
    bytes: &[u8],
    from: Reach,
) -> Result<(PlainList<TypeMark>, Reach), Stop>
    requires { from.at ≤ length bytes.now }
    ensures value { Reads type_marks_at bytes.now from result }
    ensures within { Stays (length bytes.now) from result }
{
    let mut marks = Vec::new(alloc);
    let mut next = from;
    'ranks: for rank in TYPE_RANKS {
        let (more, behind) = more_type_marks(alloc, rank, marks, bytes, next)?;
        marks = more;
        next = behind;
    }
    Ok((PlainList::of(marks), nothing(next)))
}

// Reads the first instruction of a type.
fn own_mark(alloc: Global, bytes: &[u8], from: Reach) -> Result<Reach, Stop>
    requires { from.at ≤ length bytes.now }
    ensures { Finds own_mark_at bytes.now from result }
{
    let mut next = from;
    'ranks: for rank in EARLIER_RANKS {
        match type_mark_kind(alloc, rank, bytes, next) {
            Ok((_, behind)) => return Ok(behind),
            Err(stop) => next = again(next, stop)?,
        }
    }
    let (_, behind) = type_mark_kind(alloc, TypeRank::Text, bytes, next)?;
    Ok(behind)
}

// Reads what shows that a type begins here: its first instruction, or else a capital letter.
fn start(alloc: Global, bytes: &[u8], from: Reach) -> Result<Reach, Stop>
    requires { from.at ≤ length bytes.now }
    ensures { Finds start_at bytes.now from result }
{
    match own_mark(alloc, bytes, from) {
        Ok(next) => Ok(next),
        Err(stop) => {
            let letter = again(from, stop)?;
            byte(ByteClass::Capital, bytes, letter)
        }
    }
}

/// Returns why no type is read where one would be nested too deep.
pub fn too_deep(alloc: Global, bytes: &[u8], from: Reach) -> Stop
    requires { from.at ≤ length bytes.now }
    ensures { IsStopped (sunk_at {B = Typed} start_at) bytes.now from result }
{
    match start(alloc, bytes, from) {
        Ok(next) => Stop::Deep {
            at: from.at,
            far: next.far,
        },
        Err(stop) => stop,
    }
}
