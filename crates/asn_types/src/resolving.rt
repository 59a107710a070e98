//! The types that references reach.
ghost use Rattle.std.specs.Prelude.{◌≡◌, MatchOption, Some, None};
ghost use Rattle.asn_types.specs.Refs as refs;

use crate::modules::Module;
use crate::types::{Form, TypeLabel};
use base_trees::Tree;

/// Returns the type that the reference names, in one step. None if the type is not a reference.
#[inline(always)]
pub fn follow_reference<'a>(
    module: &'a Module,
    node: &Tree<TypeLabel>,
) -> Option<&'a Tree<TypeLabel>>
    ensures { MatchOption result (refs.next module.now node.now ≡ None) (λ body. refs.next module.now node.now ≡ Some body.now) }
{
    match node.label().form {
        Form::Ref { to } => module.body(to),
        _ => None,
    }
}

/// Returns the type itself, or if it is a reference, the type at the end of its chain of references.
#[inline(always)]
pub fn resolve<'a>(module: &'a Module, node: &'a Tree<TypeLabel>) -> &'a Tree<TypeLabel>
    ensures { result.now ≡ refs.resolve module.now node.now }
{
    let mut found = node;
    'refs: for _ in 0..4u32 {
        match follow_reference(module, found) {
            Some(body) => found = body,
            None => return found,
        }
    }
    found
}
