//! The global attributes of several documents, by their names.
ghost use Rattle.std.specs.Prelude.{◌≡◌, ◌++◌, Some, cond, IfOk, OnOk};
ghost use Rattle.std.specs.Option.{option_map};
ghost use Rattle.base_texts.specs.declared.texts.Name.{Name as NameOf};
ghost use Rattle.base_texts.specs.Names.{name_eq};
ghost use Rattle.link_names.specs.WalkSeen.{what_of, part_of, parts_of};
ghost use Rattle.link_names.specs.Tables.{named_in};
ghost use Rattle.link_simple.specs.Standards as rule;
ghost use Rattle.link_simple.specs.Found.{found_in};
ghost use Rattle.link_simple.specs.StandardsSeen.{declared_as, declared_of, HasNames};

use crate::tables::{Declared, DeclaredNames};
use base_texts::{Memory, Name};
use link_names::{Part, What};
use std::alloc::Global;
use std::collections::BTreeMap;

// Returns the global attribute that a part is, if it is one.
fn declared_in<'a>(file: u32, what: What<'a>) -> Option<Declared<'a>>
    ensures { option_map declared_as result ≡ rule.declared_in file (what_of what.entry) }
{
    match what {
        What::GlobalAttribute(attribute) => Some(Declared { file, attribute }),
        _ => None,
    }
}

fn push_declared<'a>(part: Part<'a>, out: &mut Vec<Declared<'a>>) -> Result<(), Memory>
    ensures { OnOk result (declared_of out.new.items ≡ declared_of out.old.items ++ rule.declared_at (part_of part.entry)) }
{
    if let Some(found) = declared_in(part.file, part.what) {
        out.push(found)?;
    }
    Ok(())
}

fn declared_among<'a>(alloc: Global, parts: &[Part<'a>]) -> Result<Vec<Declared<'a>>, Memory>
    ensures { IfOk result (λ found. declared_of found.items ≡ rule.declared_among (parts_of parts.now)) }
{
    let mut found = Vec::new(alloc);
    'parts: for part in parts {
        push_declared(*part, &mut found)?;
    }
    Ok(found)
}

fn put_name<'a>(
    table: &mut BTreeMap<&'a Name, usize>,
    name: &'a Name,
    n: usize,
) -> Result<(), Memory>
    ensures { OnOk result ((a : NameOf) → named_in table.new a ≡ cond (name_eq name.now a) (Some n) (named_in table.old a)) }
{
    table.insert(name, n)?;
    Ok(())
}

// Inserts the last first, so that each name has the number of the first attribute that has it.
fn named<'a>(alloc: Global, declared: &[Declared<'a>]) -> Result<BTreeMap<&'a Name, usize>, Memory>
    ensures { IfOk result (λ table. HasNames table (declared_of declared.now)) }
{
    let mut table = BTreeMap::new(alloc);
    let mut i = declared.len();
    'last_first: while i > 0 {
        i -= 1;
        let one = declared[i];
        put_name(&mut table, &one.attribute.name, i)?;
    }
    Ok(table)
}

fn number_named<'a>(table: &BTreeMap<&'a Name, usize>, name: &'a Name) -> Option<usize>
    ensures { result ≡ named_in table.now name.now }
{
    match table.get(&name) {
        Some(n) => Some(*n),
        None => None,
    }
}

impl<'a> DeclaredNames<'a> {
    /// Returns the global attributes among these parts, with their names.
    pub(crate) fn of(alloc: Global, parts: &[Part<'a>]) -> Result<DeclaredNames<'a>, Memory>
        ensures { IfOk result (λ names. (a : NameOf) → found_in names a ≡ rule.named (rule.declared_among (parts_of parts.now)) a) }
    {
        let declared = declared_among(alloc, parts)?;
        let named = named(alloc, &declared)?;
        Ok(DeclaredNames { declared, named })
    }

    /// Returns the first attribute of this name.
    pub(crate) fn first(&self, name: &'a Name) -> Option<Declared<'a>>
        ensures { option_map declared_as result ≡ found_in self.now name.now }
    {
        let declared = self.declared.as_slice();
        match number_named(&self.named, name) {
            Some(n) => Some(declared[n]),
            None => None,
        }
    }
}
