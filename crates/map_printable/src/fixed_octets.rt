//! Fixed values consist of octets. The types of the fields imply it, and this module makes it a fact about modules.
ghost use Rattle.std.specs.Prelude.{◌<◌, ℕ, All, slice_index};
ghost use Rattle.base_trees.specs.Rose.{roses_of};
ghost use Rattle.asn_types.specs.declared.types.Component.{Component};
ghost use Rattle.asn_types.specs.Parts.{parts_of};
ghost use Rattle.module_print.specs.Names.{HasOctets};
ghost use Rattle.map_printable.specs.Maps.{HasFixedOctets, HaveFixedOctets, FixedAreOctets};

use asn_types::{Assignment, Component, Form, Module, TypeLabel};
use base_trees::Tree;
use simple_types::Standard;

fn see_octet(octets: &[u8])
    ensures { (k : ℕ) → slice_index octets.now k < 256 }
{}

fn see_octets(octets: &[u8])
    ensures { All (λ octet. octet < 256) octets.now }
{
    see_octet(octets);
}

fn see_standard(standard: &Standard)
    ensures { HasOctets standard.now }
{
    match standard {
        Standard::Fixed(text) => see_octets(text.as_str().as_bytes()),
        _ => {}
    }
}

fn see_parts(parts: &[Component])
    ensures { All (λ (part : Component). HasOctets part.standard) parts.now }
{
    'parts: for part in parts {
        see_standard(&part.standard);
    }
}

fn see_form(form: &Form)
    ensures { All (λ (part : Component). HasOctets part.standard) (parts_of form.now) }
{
    match form {
        Form::Sequence { parts } => see_parts(parts.items()),
        Form::Choice { parts } => see_parts(parts.items()),
        Form::SequenceOf { part, .. } => see_standard(&part.standard),
        _ => {}
    }
}

#[cycle(fixing)]
fn see_kids(kids: &[Tree<TypeLabel>])
    ensures { HaveFixedOctets (roses_of kids.now) }
{
    'kids: for kid in kids {
        see_type(kid);
    }
}

#[cycle(fixing)]
fn see_type(node: &Tree<TypeLabel>)
    ensures { HasFixedOctets node.now }
{
    see_form(&node.label().form);
    see_kids(node.kids());
}

fn see_assignments(assignments: &[Assignment])
    ensures { FixedAreOctets assignments.now }
{
    'assignments: for assignment in assignments {
        see_type(assignment.body.root());
    }
}

/// Proves that the fixed values in the types of the module consist of octets. It visits each type once.
pub fn see_fixed_octets(module: &Module)
    ensures { FixedAreOctets «module».now }
{
    see_assignments(module.assignments());
}
