//! Whether a value is one of a simple type.
ghost use Rattle.std.specs.Prelude.{◌≡◌, ◌↔◌, IfOk, IsTrue};
ghost use Rattle.simple_types.specs.Seen.{space_of};
ghost use Rattle.simple_types.specs.Sound.{Sound};
ghost use Rattle.simple_types.specs.Reading.{Holds};

use crate::accepting::read;
use crate::labels::ValueLabel;
use crate::reading::SimpleError;
use crate::simples::Simple;
use crate::spelling::spelling;
use base_flat_trees::Node;
use base_texts::Memory;
use std::alloc::Global;
use std::iter::Iterator;

fn same_flags(a: &[bool], b: &[bool]) -> bool
    ensures { IsTrue result ↔ (a.now ≡ b.now) }
{
    if a.len() != b.len() {
        return false;
    }
    'flags: for i in 0..a.len() {
        if a[i] != b[i] {
            return false;
        }
    }
    true
}

fn same_label(a: &ValueLabel, b: &ValueLabel) -> bool
    ensures { IsTrue result ↔ (a.now ≡ b.now) }
{
    match a {
        ValueLabel::Bool(x) => matches!(b, ValueLabel::Bool(y) if x == y),
        ValueLabel::Int(x) => matches!(b, ValueLabel::Int(y) if x.get() == y.get()),
        ValueLabel::Enum(x) => matches!(b, ValueLabel::Enum(y) if x == y),
        ValueLabel::Utf8(x) => matches!(b, ValueLabel::Utf8(y) if x == y),
        ValueLabel::Sequence { present: x } => {
            matches!(b, ValueLabel::Sequence { present: y } if same_flags(x.items(), y.items()))
        }
        ValueLabel::Choice(x) => matches!(b, ValueLabel::Choice(y) if x == y),
        ValueLabel::SequenceOf => matches!(b, ValueLabel::SequenceOf),
    }
}

// Whether two values are equal.
fn is_same(a: &Node<'_, ValueLabel>, b: &Node<'_, ValueLabel>) -> bool
    ensures { IsTrue result ↔ (a.now ≡ b.now) }
{
    if !same_label(a.label(), b.label()) {
        return false;
    }
    let mut others = b.kids();
    'kids: for kid in a.kids() {
        match others.next() {
            None => return false,
            Some(other) => {
                if !is_same(&kid, &other) {
                    return false;
                }
            }
        }
    }
    others.is_empty()
}

/// Returns whether the type accepts the value's own spelling with this value.
pub fn holds(alloc: Global, simple: &Simple, value: &Node<'_, ValueLabel>) -> Result<bool, Memory>
    requires { Sound (space_of simple.now) }
    ensures { IfOk result (λ b. IsTrue b ↔ Holds (space_of simple.now) value.now) }
{
    let text = spelling(alloc, simple, value)?;
    match read(alloc, simple, text.as_str()) {
        Ok(again) => Ok(is_same(&again.root(), value)),
        Err(SimpleError::Memory) => Err(Memory),
        Err(_) => Ok(false),
    }
}
