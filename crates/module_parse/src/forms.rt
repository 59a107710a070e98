//! Types on lines of one level of indentation, with a greatest nesting depth.
ghost use Rattle.std.specs.Prelude.{◌≡◌, ◌++◌, ◌≤◌, ◌+◌, ◌<◌, ◌^◌, length, suc};
ghost use Rattle.module_grammar.specs.Reading.{behind_at};
ghost use Rattle.module_print.specs.Notation.{new_line};
ghost use Rattle.module_grammar.specs.TypeReading as grammar;
ghost use Rattle.module_grammar.specs.TypeReading.{type_at};
ghost use Rattle.module_parse.specs.Reads.{Reads, Stays, Moves};
ghost use Rattle.module_parse.specs.Readers.{word_seen, sorted_at, ReadsForm, ReadsBlock, ReadsEnding, simple_form_at};
ghost use Rattle.module_parse.specs.Ended.{EndsPart};

use crate::bounds::{class, number_range, size};
use crate::endings::ending;
use crate::items::enumerated;
use crate::marks::{part_marks, too_deep, type_marks};
use crate::names::plain_reference;
use crate::parts::{closing_brace, item_label, label, word_and_line};
use crate::steps::{again, literal, nothing};
use base_texts::Text;
use base_trees::Tree;
use module_grammar::{Reach, Stop};
use module_text::{
    Absence, Boxed, BoxedForm, PartHead, Parts, PlainEnds, PlainForm, PlainLabel, PlainList,
    PlainName, PlainOctets, PlainPart, join,
};
use std::alloc::Global;

type TypeTree = Tree<PlainLabel>;

// The words with which types begin that are not references, and all others.
#[derive(Clone, Copy)]
enum Word {
    Boolean,
    Integer,
    Utf8String,
    Enumerated,
    Sequence,
    Choice,
    Other,
}

fn word_of(name: &Text) -> Word
    ensures { word_seen result ≡ grammar.word_of name.now }
{
    let word = name.bytes();
    if word == b"BOOLEAN".as_slice() {
        Word::Boolean
    } else if word == b"INTEGER".as_slice() {
        Word::Integer
    } else if word == b"UTF8String".as_slice() {
        Word::Utf8String
    } else if word == b"ENUMERATED".as_slice() {
        Word::Enumerated
    } else if word == b"SEQUENCE".as_slice() {
        Word::Sequence
    } else if word == b"CHOICE".as_slice() {
        Word::Choice
    } else {
        Word::Other
    }
}

// The kind of the parts in a block: the components of a SEQUENCE or the alternatives of a CHOICE.
#[derive(Clone, Copy)]
enum Sort {
    Component,
    Alternative,
}

// The greatest nesting depth of values, that of types from here on, and the level of the lines.
#[derive(Clone, Copy)]
struct Room {
    most: u32,
    depth: u32,
    levels: usize,
}

// Reads a form without nested types.
fn simple_form(
    alloc: Global,
    word: Word,
    name: PlainName,
    bytes: &[u8],
    from: Reach,
) -> Result<(PlainForm, Reach), Stop>
    requires { from.at ≤ length bytes.now }
    ensures value { Reads (simple_form_at name word) bytes.now from result }
    ensures within { Stays (length bytes.now) from result }
{
    match word {
        Word::Boolean => Ok((PlainForm::Bool, nothing(from))),
        Word::Integer => {
            let (range, next) = number_range(alloc, bytes, from)?;
            Ok((PlainForm::Int { range }, next))
        }
        Word::Utf8String => {
            let (size, behind) = size(alloc, bytes, from)?;
            let (class, next) = class(bytes, behind)?;
            Ok((PlainForm::Utf8 { size, class }, next))
        }
        Word::Enumerated => enumerated(alloc, name, bytes, from),
        _ => Ok((PlainForm::Ref { reference: name }, nothing(from))),
    }
}

// Reads the form into a box. Types nest, so each level must use little stack.
#[inline(never)]
fn boxed_form(
    alloc: Global,
    word: Word,
    name: PlainName,
    bytes: &[u8],
    from: Reach,
) -> Result<(Boxed<PlainForm>, Reach), Stop>
    requires { from.at ≤ length bytes.now }
    ensures value { Reads (simple_form_at name word) bytes.now from result }
    ensures within { Stays (length bytes.now) from result }
{
    let (form, next) = simple_form(alloc, word, name, bytes, from)?;
    Ok((Boxed::new(alloc, form)?, next))
}

// Reads the fixed value and the absence of a part after its type.
fn part_ending(
    alloc: Global,
    most: u32,
    sort: Sort,
    bytes: &[u8],
    from: Reach,
) -> Result<((Option<PlainOctets>, Absence), Reach), Stop>
    requires { from.at ≤ length bytes.now }
    ensures value { ReadsEnding most sort bytes.now from result }
    ensures within { Stays (length bytes.now) from result }
{
    match sort {
        Sort::Component => ending(alloc, most, bytes, from),
        Sort::Alternative => Ok(((None, Absence::Never), from)),
    }
}

// Returns the part with the fixed value and the absence that follow its type.
fn ended_part(
    alloc: Global,
    most: u32,
    sort: Sort,
    head: PartHead,
    bytes: &[u8],
    from: Reach,
) -> Result<(Boxed<PlainPart>, Reach), Stop>
    requires { from.at ≤ length bytes.now }
    ensures value { EndsPart most sort head bytes.now from result }
    ensures within { Stays (length bytes.now) from result }
{
    let ((fixed, absence), next) = part_ending(alloc, most, sort, bytes, from)?;
    let part = head.ended(alloc, fixed, absence)?;
    Ok((part, next))
}

// Reads a part on a line of its own, after this word.
#[cycle(types)]
fn part(
    alloc: Global,
    room: Room,
    sort: Sort,
    text: &[u8],
    bytes: &[u8],
    from: Reach,
) -> Result<((Boxed<PlainPart>, Boxed<TypeTree>), Reach), Stop>
    requires here { from.at ≤ length bytes.now }
    requires room { (room.levels + room.depth ≤ room.most) × (room.most < 2 ^ 32) }
    ensures value { Reads (behind_at (text.now ++ new_line room.levels) (sorted_at room.most sort (type_at room.most room.depth room.levels))) bytes.now from result }
    ensures within { Moves (length bytes.now) from result }
{
    let start = word_and_line(text, room.levels, bytes, from)?;
    let (identifier, behind_label) = label(alloc, bytes, start)?;
    let (marks, behind_marks) = part_marks(alloc, bytes, behind_label)?;
    let (tree, behind_type) = typed(alloc, room, bytes, behind_marks)?;
    let head = PartHead {
        at: start.at as u64,
        identifier,
        marks,
    };
    let (part, next) = ended_part(alloc, room.most, sort, head, bytes, behind_type)?;
    Ok(((part, tree), next))
}

// Reads parts in braces, each on a line of its own, one level more than the lines of the braces.
#[cycle(types)]
fn block(
    alloc: Global,
    room: Room,
    sort: Sort,
    bytes: &[u8],
    from: Reach,
) -> Result<(Parts, Reach), Stop>
    requires here { from.at ≤ length bytes.now }
    requires room { (room.levels + room.depth < room.most) × (room.most < 2 ^ 32) }
    ensures value { ReadsBlock (grammar.block_at room.levels (sorted_at room.most sort (type_at room.most room.depth (suc room.levels)))) bytes.now from result }
    ensures within { Moves (length bytes.now) from result }
{
    let inside = Room {
        levels: room.levels + 1,
        ..room
    };
    let ((first, tree), behind) = part(alloc, inside, sort, b" {", bytes, from)?;
    let mut parts = Parts::new(alloc).with(first, tree)?;
    let mut next = behind;
    'parts: loop {
        match part(alloc, inside, sort, b",", bytes, next) {
            Ok(((other, tree), behind)) => {
                let more = parts.with(other, tree)?;
                parts = more;
                next = behind;
            }
            Err(stop) => {
                let end = again(next, stop)?;
                let next = closing_brace(room.levels, bytes, end)?;
                return Ok((parts, next));
            }
        }
    }
}

// Reads what follows SEQUENCE, if it has items.
#[cycle(types)]
fn sequence_of(
    alloc: Global,
    room: Room,
    bytes: &[u8],
    from: Reach,
) -> Result<
    (
        (Option<PlainEnds>, (Boxed<PlainPart>, Boxed<TypeTree>)),
        Reach,
    ),
    Stop,
>
    requires here { from.at ≤ length bytes.now }
    requires room { (room.levels + room.depth < room.most) × (room.most < 2 ^ 32) }
    ensures value { Reads (grammar.sequence_of_at (type_at room.most room.depth room.levels)) bytes.now from result }
    ensures within { Moves (length bytes.now) from result }
{
    let (size, behind_size) = size(alloc, bytes, from)?;
    let start = literal(b" OF ", bytes, behind_size)?;
    let (identifier, behind_label) = item_label(alloc, bytes, start)?;
    let (marks, behind_marks) = part_marks(alloc, bytes, behind_label)?;
    let (tree, next) = typed(alloc, room, bytes, behind_marks)?;
    let head = PartHead {
        at: start.at as u64,
        identifier,
        marks,
    };
    let part = head.ended(alloc, None, Absence::Never)?;
    Ok(((size, (part, tree)), next))
}

// Reads what follows SEQUENCE, if anything does. Otherwise the word is a reference.
#[cycle(types)]
fn sequence(
    alloc: Global,
    room: Room,
    name: PlainName,
    bytes: &[u8],
    from: Reach,
) -> Result<((BoxedForm, Vec<TypeTree>), Reach), Stop>
    requires here { from.at ≤ length bytes.now }
    requires room { (room.levels + room.depth < room.most) × (room.most < 2 ^ 32) }
    ensures value { ReadsForm (grammar.tail_at room.most room.levels (type_at room.most room.depth room.levels) (type_at room.most room.depth (suc room.levels)) name grammar.Sequence) bytes.now from result }
    ensures within { Stays (length bytes.now) from result }
{
    let start = match literal(b" {}", bytes, from) {
        Ok(next) => {
            let parts = PlainList::of(Vec::new(alloc));
            return Ok(((BoxedForm::Sequence { parts }, Vec::new(alloc)), next));
        }
        Err(stop) => again(from, stop)?,
    };
    let other = match block(alloc, room, Sort::Component, bytes, start) {
        Ok((inner, next)) => {
            let parts = PlainList::of(inner.parts);
            return Ok(((BoxedForm::Sequence { parts }, inner.types), next));
        }
        Err(stop) => again(start, stop)?,
    };
    match sequence_of(alloc, room, bytes, other) {
        Ok(((size, (part, tree)), next)) => {
            let mut kids = Vec::new(alloc);
            kids.push(tree.into_inner())?;
            Ok(((BoxedForm::SequenceOf { size, part }, kids), next))
        }
        Err(stop) => {
            let end = again(other, stop)?;
            Ok((
                (BoxedForm::Ref { reference: name }, Vec::new(alloc)),
                nothing(end),
            ))
        }
    }
}

// Reads what follows CHOICE, if anything does. Otherwise the word is a reference.
#[cycle(types)]
fn choice(
    alloc: Global,
    room: Room,
    name: PlainName,
    bytes: &[u8],
    from: Reach,
) -> Result<((BoxedForm, Vec<TypeTree>), Reach), Stop>
    requires here { from.at ≤ length bytes.now }
    requires room { (room.levels + room.depth < room.most) × (room.most < 2 ^ 32) }
    ensures value { ReadsForm (grammar.tail_at room.most room.levels (type_at room.most room.depth room.levels) (type_at room.most room.depth (suc room.levels)) name grammar.Choice) bytes.now from result }
    ensures within { Stays (length bytes.now) from result }
{
    match block(alloc, room, Sort::Alternative, bytes, from) {
        Ok((inner, next)) => {
            let parts = PlainList::of(inner.parts);
            Ok(((BoxedForm::Choice { parts }, inner.types), next))
        }
        Err(stop) => {
            let end = again(from, stop)?;
            Ok((
                (BoxedForm::Ref { reference: name }, Vec::new(alloc)),
                nothing(end),
            ))
        }
    }
}

#[cycle(types)]
fn typed(
    alloc: Global,
    room: Room,
    bytes: &[u8],
    from: Reach,
) -> Result<(Boxed<TypeTree>, Reach), Stop>
    requires here { from.at ≤ length bytes.now }
    requires room { (room.levels + room.depth ≤ room.most) × (room.most < 2 ^ 32) }
    ensures value { Reads (type_at room.most room.depth room.levels) bytes.now from result }
    ensures within { Stays (length bytes.now) from result }
{
    if room.depth == 0 {
        return Err(too_deep(alloc, bytes, from));
    }
    let below = Room {
        depth: room.depth - 1,
        ..room
    };
    let (marks, behind_marks) = type_marks(alloc, bytes, from)?;
    let (name, behind) = plain_reference(alloc, bytes, behind_marks)?;
    let at = from.at as u64;
    let word = word_of(&name.name);
    match word {
        Word::Sequence => {
            let ((form, kids), next) = sequence(alloc, below, name, bytes, behind)?;
            let tree = join(alloc, at, marks, form, kids)?;
            Ok((tree, next))
        }
        Word::Choice => {
            let ((form, kids), next) = choice(alloc, below, name, bytes, behind)?;
            let tree = join(alloc, at, marks, form, kids)?;
            Ok((tree, next))
        }
        _ => {
            let (form, next) = boxed_form(alloc, word, name, bytes, behind)?;
            let form = BoxedForm::Simple { form };
            let tree = join(alloc, at, marks, form, Vec::new(alloc))?;
            Ok((tree, next))
        }
    }
}

/// Reads a type on lines that are not indented. At most `most` types, and at most `most` values, are nested.
pub fn body(alloc: Global, most: u32, bytes: &[u8], from: Reach) -> Result<(TypeTree, Reach), Stop>
    requires { from.at ≤ length bytes.now }
    ensures value { Reads (type_at most most 0) bytes.now from result }
    ensures within { Stays (length bytes.now) from result }
{
    let room = Room {
        most,
        depth: most,
        levels: 0,
    };
    let (tree, next) = typed(alloc, room, bytes, from)?;
    Ok((tree.into_inner(), next))
}
