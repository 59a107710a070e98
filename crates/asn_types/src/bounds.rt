//! Numbers of types have 128 bits, and sizes 32 bits. The types of the fields imply it, and this module makes it a fact about
//! modules.
ghost use Rattle.std.specs.Prelude.{◌≡◌, true};
ghost use Rattle.base_trees.specs.Rose.{roses_of};
ghost use Rattle.simple_types.specs.Lexical.{is_128_bits};
ghost use Rattle.asn_types.specs.Bounds.{IsBound, AreWhole, IsSize, HasBounds, AreBounded, AllBounded, IsBounded};

use crate::modules::Assignment;
use crate::types::{Form, TypeLabel};
use base_trees::Tree;

fn see_bound(bound: Option<i128>)
    ensures { IsBound bound }
{
    match bound {
        Some(_number) => {}
        None => {}
    }
}

fn see_size(size: Option<u32>)
    ensures { IsSize size }
{
    match size {
        Some(_size) => {}
        None => {}
    }
}

fn see_number(number: i128)
    ensures { is_128_bits number ≡ true }
{}

fn see_numbers(numbers: &[i128])
    ensures { AreWhole numbers.now }
{
    'numbers: for number in numbers {
        see_number(*number);
    }
}

fn see_form(form: &Form)
    ensures { HasBounds form.now }
{
    match form {
        Form::Int { lo, hi } => {
            see_bound(*lo);
            see_bound(*hi);
        }
        Form::Numbers { numbers } => see_numbers(numbers.items()),
        Form::Utf8 { min, max, .. } => {
            let _least = *min;
            see_size(*max);
        }
        Form::SequenceOf { min, max, .. } => {
            let _least = *min;
            see_size(*max);
        }
        _ => {}
    }
}

#[cycle(seeing)]
fn see_kids(kids: &[Tree<TypeLabel>])
    ensures { AllBounded (roses_of kids.now) }
{
    'kids: for kid in kids {
        see_type(kid);
    }
}

#[cycle(seeing)]
fn see_type(node: &Tree<TypeLabel>)
    ensures { AreBounded node.now }
{
    see_form(&node.label().form);
    see_kids(node.kids());
}

/// Proves that the numbers of each type have 128 bits and its sizes 32 bits. It visits each type once.
pub(crate) fn see_assignments(assignments: &[Assignment])
    ensures { IsBounded assignments.now }
{
    'assignments: for assignment in assignments {
        see_type(assignment.body.root());
    }
}
