//! Names and references of components.
ghost use Rattle.std.specs.Prelude.{◌≡◌, [], IfOk};
ghost use Rattle.schema_syntax.specs.Scopes.{bindings_in};
ghost use Rattle.schema_syntax.specs.Seen.{name_seen};
ghost use Rattle.schema_read.specs.Names as names;

use base_texts::{Memory, Name, Text};
use schema_components::RawRef;
use schema_syntax::{NamespaceScope, Resolved, TypeName, resolve, type_of, value_of};
use std::alloc::Global;

pub(crate) fn empty_text(alloc: Global) -> Text
    ensures { result ≡ [] }
{
    Text::empty()
}

pub(crate) fn no_name(alloc: Global) -> Name
    ensures { result ≡ names.no_name }
{
    Name {
        space: empty_text(alloc),
        local: empty_text(alloc),
    }
}

fn name_of(alloc: Global, found: Resolved<'_, '_>) -> Result<Name, Memory>
    ensures { IfOk result (λ name. name ≡ name_seen found.entry) }
{
    let space = Text::from_str(alloc, found.space)?;
    let local = Text::from_str(alloc, found.local)?;
    Ok(Name { space, local })
}

/// The type that the text names.
pub(crate) fn type_ref(
    alloc: Global,
    scope: &NamespaceScope<'_, '_>,
    text: &str,
) -> Result<RawRef, Memory>
    ensures { IfOk result (λ reference. reference ≡ names.type_ref (bindings_in scope.now) text.now) }
{
    match type_of(scope, text) {
        Some(TypeName::Known(which)) => Ok(RawRef::Builtin(which)),
        Some(TypeName::Elsewhere(found)) => {
            let name = name_of(alloc, found)?;
            Ok(RawRef::Other(name))
        }
        _ => Ok(RawRef::Other(no_name(alloc))),
    }
}

/// The name that the text refers to.
pub(crate) fn referred(
    alloc: Global,
    scope: &NamespaceScope<'_, '_>,
    text: &str,
) -> Result<Name, Memory>
    ensures { IfOk result (λ name. name ≡ names.referred (bindings_in scope.now) text.now) }
{
    match resolve(scope, text) {
        Some(found) => name_of(alloc, found),
        None => Ok(no_name(alloc)),
    }
}

/// The value of the attribute of this name, or the empty text.
pub(crate) fn value_or_empty(
    alloc: Global,
    name: &str,
    own: &[(Text, Text)],
) -> Result<Text, Memory>
    ensures { IfOk result (λ value. value ≡ names.value_or_empty name.now own.now) }
{
    match value_of(name, own) {
        Some(value) => value.copy(alloc),
        None => Ok(empty_text(alloc)),
    }
}

/// The name that a declaration of this namespace gives.
pub(crate) fn declared_name(
    alloc: Global,
    space: &Text,
    own: &[(Text, Text)],
) -> Result<Name, Memory>
    ensures { IfOk result (λ name. name ≡ names.declared_name space.now own.now) }
{
    let space = space.copy(alloc)?;
    let local = value_or_empty(alloc, "name", own)?;
    Ok(Name { space, local })
}
