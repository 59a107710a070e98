//! The beginning of a document, and the declarations of its root.
ghost use Rattle.std.specs.Prelude.{◌≡◌, ◌++◌, ◌∷◌, length, IfOk};
ghost use Rattle.std.specs.List.{flat_map};
ghost use Rattle.xml_write.specs.Written.{written_name, written_declaration, xml_declaration};

use crate::prefixes::Prefixes;
use crate::writing::{XML_DECLARATION, write_declarations};
use std::alloc::{AllocError, Global};

// The number of bytes before the declarations of namespaces, which follow the name of the root.
pub(crate) fn front_len(
    alloc: Global,
    prefixes: &Prefixes<'_>,
    space: &[u8],
    local: &[u8],
) -> Result<usize, AllocError>
    ensures { IfOk result (λ count. count ≡ length (xml_declaration ++ 60 ∷ written_name prefixes.now (record { space = space.now; local = local.now }))) }
{
    let mut front = Vec::from_slice(alloc, XML_DECLARATION)?;
    prefixes.qualifier(space).write_start(&mut front)?;
    front.extend_from_slice(local)?;
    Ok(front.as_slice().len())
}

// The declarations of all namespaces.
pub(crate) fn declarations(alloc: Global, prefixes: &Prefixes<'_>) -> Result<Vec<u8>, AllocError>
    ensures { IfOk result (λ text. text.items ≡ flat_map written_declaration prefixes.now) }
{
    let mut out = Vec::new(alloc);
    write_declarations(&mut out, prefixes.entries())?;
    Ok(out)
}
