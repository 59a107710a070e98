//! The contents of a module, one line for each assignment.
ghost use Rattle.std.specs.Prelude.{◌≡◌, ◌++◌, IfOk, OnOk};
ghost use Rattle.asn_types.specs.Names.{space_told};
ghost use Rattle.module_read.specs.Summary as told;

use asn_types::{Assignment, Marks, Module};
use base_texts::Memory;
use itoa::Buffer;
use std::alloc::Global;

// Returns the namespace that the instructions give. It is empty if there is none.
fn space_of(marks: &Marks) -> &[u8]
    ensures { result.now ≡ space_told marks.now }
{
    match marks.namespace() {
        Some(space) => space.bytes(),
        None => b"".as_slice(),
    }
}

// Appends the first part of a line, up to the local name.
fn write_head(out: &mut Vec<u8>, assignment: &Assignment) -> Result<(), Memory>
    ensures { OnOk result (out.new.items ≡ out.old.items ++ told.head assignment.now) }
{
    out.extend_from_slice(assignment.reference.bytes())?;
    out.extend_from_slice(b" {")?;
    out.extend_from_slice(space_of(&assignment.marks))?;
    out.extend_from_slice(b"}")?;
    Ok(())
}

fn write_line(out: &mut Vec<u8>, assignment: &Assignment) -> Result<(), Memory>
    ensures { OnOk result (out.new.items ≡ out.old.items ++ told.line assignment.now) }
{
    write_head(out, assignment)?;
    let name = assignment.marks.local_name(&assignment.reference);
    out.extend_from_slice(name.bytes())?;
    out.extend_from_slice(b" ")?;
    out.extend_from_slice(Buffer::new().format(assignment.body.count()).as_bytes())?;
    out.push(b'\n')?;
    Ok(())
}

/// Returns a line for each assignment: its reference, the name that it represents as `{namespace}local`, and the number of types in
/// its type, which is included.
pub fn summary(alloc: Global, found: &Module) -> Result<Vec<u8>, Memory>
    ensures { IfOk result (λ text. text.items ≡ told.summary found.now) }
{
    let assignments = found.assignments();
    let mut out = Vec::new(alloc);
    'assignments: for assignment in assignments {
        write_line(&mut out, assignment)?;
    }
    Ok(out)
}
