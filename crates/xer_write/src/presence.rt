//! The parts of a value that are present.
ghost use Rattle.std.specs.Prelude.{◌≡◌};
ghost use Rattle.asn_values.specs.Values as rule;
ghost use Rattle.xer_write.specs.Private.Giving.{may_be_present};

use asn_types::{Component, Role, TypeLabel};
use base_trees::Tree;
use simple_types::ValueLabel;

/// The place of a child of a value: the part, its role, and its type.
#[derive(Drop)]
pub(crate) struct Place<'a> {
    pub(crate) role: Role,
    pub(crate) part: &'a Component,
    pub(crate) node: &'a Tree<TypeLabel>,
}

/// Returns whether the last part of a SEQUENCE is absent.
pub(crate) fn is_last_absent(label: &ValueLabel) -> bool
    ensures { result ≡ rule.is_last_absent label.now }
{
    match label {
        ValueLabel::Sequence { present } => match present.items().last() {
            Some(flag) => !*flag,
            None => false,
        },
        _ => false,
    }
}

/// Returns whether there is a flag for each component, and each component that is absent is optional.
pub(crate) fn may_be_present(parts: &[Component], present: &[bool]) -> bool
    ensures { result ≡ may_be_present parts.now present.now }
{
    if parts.len() != present.len() {
        return false;
    }
    'parts: for i in 0..parts.len() {
        if !present[i] && !parts[i].optional {
            return false;
        }
    }
    true
}
