//! Encoding instructions.
ghost use Rattle.std.specs.Prelude.{◌≡◌, ◌++◌, [], OnOk, IfOk, unwrap_or};
ghost use Rattle.module_print.specs.Instructions.{as_name, number_identifier, item_identifier, as_item, name_prefix, namespace_prefix, white_space_prefix, text_prefix, instruction, rank, if_ranked, ranked, instructions};

use crate::notation::write_quoted;
use asn_names::{NameForm, restoring};
use asn_types::{Form, Instruction, Marks};
use base_texts::{Memory, Text, WhiteSpace};
use itoa::Buffer;
use std::alloc::{AllocError, Global};

// Appends a name, in the form that distinguishes it from the generated name.
fn write_as_name(out: &mut Vec<u8>, generated: &Text, name: &Text) -> Result<(), AllocError>
    ensures { OnOk result (out.new.items ≡ out.old.items ++ as_name generated.now name.now) }
{
    out.extend_from_slice(b" AS ")?;
    match restoring(generated, name) {
        Some(NameForm::Capitalized) => out.extend_from_slice(b"CAPITALIZED"),
        Some(NameForm::Uncapitalized) => out.extend_from_slice(b"UNCAPITALIZED"),
        Some(NameForm::Quoted) | None => write_quoted(out, name.bytes()),
    }
}

fn write_name(out: &mut Vec<u8>, generated: &Text, name: &Text) -> Result<(), AllocError>
    ensures { OnOk result (out.new.items ≡ out.old.items ++ name_prefix generated.now name.now) }
{
    out.extend_from_slice(b"[NAME")?;
    write_as_name(out, generated, name)?;
    out.extend_from_slice(b"] ")
}

fn write_namespace(out: &mut Vec<u8>, space: &Text) -> Result<(), AllocError>
    ensures { OnOk result (out.new.items ≡ out.old.items ++ namespace_prefix space.now) }
{
    out.extend_from_slice(b"[NAMESPACE AS ")?;
    write_quoted(out, space.bytes())?;
    out.extend_from_slice(b"] ")
}

fn write_white_space(out: &mut Vec<u8>, how: WhiteSpace) -> Result<(), AllocError>
    ensures { OnOk result (out.new.items ≡ out.old.items ++ white_space_prefix how) }
{
    match how {
        WhiteSpace::Preserve => Ok(()),
        WhiteSpace::Replace => out.extend_from_slice(b"[WHITESPACE REPLACE] "),
        WhiteSpace::Collapse => out.extend_from_slice(b"[WHITESPACE COLLAPSE] "),
    }
}

// Returns the identifier of an item that represents a number.
fn number_identifier(alloc: Global, n: i128) -> Result<Text, Memory>
    ensures { IfOk result (λ identifier. identifier ≡ number_identifier n) }
{
    let mut identifier = String::from_str(alloc, "int")?;
    identifier.push_str(Buffer::new().format(n))?;
    Text::from_string(identifier)
}

// Appends the text of an item with this identifier.
fn write_as_item(out: &mut Vec<u8>, identifier: &Text, text: &Text) -> Result<(), Memory>
    ensures { OnOk result (out.new.items ≡ out.old.items ++ as_item identifier.now text.now) }
{
    out.extend_from_slice(identifier.bytes())?;
    write_as_name(out, identifier, text)?;
    Ok(())
}

// Appends the text of the item with this number.
fn write_item(out: &mut Vec<u8>, form: &Form, item: u32, text: &Text) -> Result<(), Memory>
    ensures { OnOk result (out.new.items ≡ out.old.items ++ as_item (unwrap_or (item_identifier form.now item) []) text.now) }
{
    let alloc = *out.allocator();
    match form {
        Form::Words { identifiers, .. } => {
            if let Some(identifier) = identifiers.items().get(item as usize) {
                return write_as_item(out, identifier, text);
            }
        }
        Form::Numbers { numbers } => {
            if let Some(n) = numbers.items().get(item as usize) {
                let identifier = number_identifier(alloc, *n)?;
                return write_as_item(out, &identifier, text);
            }
        }
        _ => {}
    }
    write_as_item(out, &Text::empty(), text)
}

fn write_text(out: &mut Vec<u8>, form: &Form, item: u32, text: &Text) -> Result<(), Memory>
    ensures { OnOk result (out.new.items ≡ out.old.items ++ text_prefix form.now item text.now) }
{
    out.extend_from_slice(b"[TEXT:")?;
    write_item(out, form, item, text)?;
    out.extend_from_slice(b"] ")?;
    Ok(())
}

// Appends an instruction of a type of this form, whose part or assignment has this generated name.
fn write_instruction(
    out: &mut Vec<u8>,
    generated: &Text,
    form: &Form,
    mark: &Instruction,
) -> Result<(), Memory>
    ensures { OnOk result (out.new.items ≡ out.old.items ++ instruction generated.now form.now mark.now) }
{
    match mark {
        Instruction::Attribute => out.extend_from_slice(b"[ATTRIBUTE] ")?,
        Instruction::Untagged => out.extend_from_slice(b"[UNTAGGED] ")?,
        Instruction::Name(name) => write_name(out, generated, name)?,
        Instruction::Namespace(space) => write_namespace(out, space)?,
        Instruction::UseNil => out.extend_from_slice(b"[USE-NIL] ")?,
        Instruction::EmbedValues => out.extend_from_slice(b"[EMBED-VALUES] ")?,
        Instruction::UseOrder => out.extend_from_slice(b"[USE-ORDER] ")?,
        Instruction::List => out.extend_from_slice(b"[LIST] ")?,
        Instruction::UseUnion => out.extend_from_slice(b"[USE-UNION] ")?,
        Instruction::UseNumber => out.extend_from_slice(b"[USE-NUMBER] ")?,
        Instruction::WhiteSpace(how) => write_white_space(out, *how)?,
        Instruction::Text { item, text } => write_text(out, form, *item, text)?,
    }
    Ok(())
}

// Returns the position of an instruction among others.
fn rank(mark: &Instruction) -> u8
    ensures { result ≡ rank mark.now }
{
    match mark {
        Instruction::Attribute => 0,
        Instruction::Untagged => 1,
        Instruction::Name(_) => 2,
        Instruction::Namespace(_) => 3,
        Instruction::UseNil => 4,
        Instruction::EmbedValues => 5,
        Instruction::UseOrder => 6,
        Instruction::List => 7,
        Instruction::UseUnion => 8,
        Instruction::UseNumber => 9,
        Instruction::WhiteSpace(_) => 10,
        Instruction::Text { .. } => 11,
    }
}

const RANKS: [u8; 12] = [0, 1, 2, 3, 4, 5, 6, 7, 8, 9, 10, 11];

// Appends an instruction if it has this rank.
fn write_if_ranked(
    out: &mut Vec<u8>,
    generated: &Text,
    form: &Form,
    mark: &Instruction,
    place: u8,
) -> Result<(), Memory>
    ensures { OnOk result (out.new.items ≡ out.old.items ++ if_ranked generated.now form.now place mark.now) }
{
    if rank(mark) == place {
        write_instruction(out, generated, form, mark)?;
    }
    Ok(())
}

// Appends the instructions of one rank.
fn write_ranked(
    out: &mut Vec<u8>,
    generated: &Text,
    form: &Form,
    marks: &[Instruction],
    place: u8,
) -> Result<(), Memory>
    ensures { OnOk result (out.new.items ≡ out.old.items ++ ranked generated.now form.now marks.now place) }
{
    'marks: for mark in marks {
        write_if_ranked(out, generated, form, mark, place)?;
    }
    Ok(())
}

// Appends all instructions, in the order of their ranks.
pub(crate) fn write_instructions(
    out: &mut Vec<u8>,
    generated: &Text,
    form: &Form,
    marks: &Marks,
) -> Result<(), Memory>
    ensures { OnOk result (out.new.items ≡ out.old.items ++ instructions generated.now form.now marks.now) }
{
    let marks = marks.items();
    'places: for place in RANKS {
        write_ranked(out, generated, form, marks, place)?;
    }
    Ok(())
}
