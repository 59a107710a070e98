//! Copies of simple types.
ghost use Rattle.std.specs.Prelude.{◌≡◌, IfOk, OnOk};
ghost use Rattle.simple_types.specs.Seen.{space_of, spaces_in};
ghost use Rattle.simple_types.specs.Joining.{joined};

use crate::simples::{Simple, SimpleList};
use base_texts::Memory;
use std::alloc::Global;

#[cycle(copying)]
pub fn append_copies(alloc: Global, out: &mut Vec<Simple>, members: &[Simple]) -> Result<(), Memory>
    ensures { OnOk result (spaces_in out.new.items ≡ joined (spaces_in out.old.items) (spaces_in members.now)) }
{
    'members: for member in members {
        let copied = copy(alloc, member)?;
        out.push(copied)?;
    }
    Ok(())
}

#[cycle(copying)]
pub fn copy(alloc: Global, simple: &Simple) -> Result<Simple, Memory>
    ensures { IfOk result (λ copied. space_of copied ≡ space_of simple.now) }
{
    match simple {
        Simple::Bool => Ok(Simple::Bool),
        Simple::Whole { lo, hi } => Ok(Simple::Whole { lo: *lo, hi: *hi }),
        Simple::Numbers(numbers) => {
            let numbers = numbers.copy(alloc)?;
            Ok(Simple::Numbers(numbers))
        }
        Simple::Words { space, words } => {
            let words = words.copy(alloc)?;
            Ok(Simple::Words {
                space: *space,
                words,
            })
        }
        Simple::Chars {
            space,
            min,
            max,
            class,
        } => Ok(Simple::Chars {
            space: *space,
            min: *min,
            max: *max,
            class: *class,
        }),
        Simple::List { item, min, max } => {
            let item = copy(alloc, item)?;
            let item = Box::new(alloc, item)?;
            Ok(Simple::List {
                item,
                min: *min,
                max: *max,
            })
        }
        Simple::Union(members) => {
            let mut copies = Vec::new(alloc);
            append_copies(alloc, &mut copies, members.items())?;
            Ok(Simple::Union(SimpleList::of(copies)))
        }
    }
}
