//! The first attribute whose default or fixed value doesn't fit.
ghost use Rattle.std.specs.Prelude.{◌≡◌, Some, None, map, IfOk};
ghost use Rattle.std.specs.List.{filter_map};
ghost use Rattle.std.specs.Option.{option_map};
ghost use Rattle.schema_components.specs.Documents.{doc_of};
ghost use Rattle.schema_components.specs.Seen.{base_of, use_of};
ghost use Rattle.link_names.specs.WalkSeen.{what_of, parts_of};
ghost use Rattle.link_names.specs.Order.{IsFirstOf, IsFirstSuch};
ghost use Rattle.link_names.specs.Cycles.{IsCircular};
ghost use Rattle.link_names.specs.SimpleTypes.{simple_types as definitions};
ghost use Rattle.link_names.specs.Tables.{told_by};
ghost use Rattle.link_simple.specs.Answering.{made_of, AreSound};
ghost use Rattle.link_simple.specs.Making.{IsMaking};
ghost use Rattle.link_simple.specs.Found.{found_in};
ghost use Rattle.link_simple.specs.StandardsSeen.{declared_as};
ghost use Rattle.link_simple.specs.Standards as rule;

use crate::parts::made_type;
use crate::spellings::in_spelling;
use crate::tables::{Declared, DeclaredNames};
use base_texts::Memory;
use link_names::{
    LinkWhy, LinkingFault, Part, Place, SimpleNumbers, What, all_parts, earlier, simple_types,
};
use schema_components::{RawBase, RawDoc, RawUse};
use simple_types::{Simple, Standard};
use std::alloc::Global;

// Returns whether a reference has a value constraint that isn't that of the attribute that it names, which is fixed.
fn differs(own: &Standard, other: &Standard) -> bool
    ensures { result ≡ rule.differs own.now other.now }
{
    match other {
        Standard::Free => false,
        Standard::Default(_) => false,
        Standard::Fixed(fixed) => match own {
            Standard::Free => false,
            Standard::Default(_) => true,
            Standard::Fixed(text) => text.bytes() != fixed.bytes(),
        },
    }
}

fn do_differ(own: &Option<Standard>, other: &Option<Standard>) -> bool
    ensures { result ≡ rule.do_differ own.now other.now }
{
    match own {
        Some(own) => match other {
            Some(other) => differs(own, other),
            None => false,
        },
        None => false,
    }
}

// Returns what is wrong with an attribute, by its value constraint and that of the attribute that it names.
fn why(own: &Option<Standard>, other: &Option<Standard>) -> Option<LinkWhy>
    ensures { result ≡ rule.why_of own.now other.now }
{
    if own.is_none() {
        Some(LinkWhy::BadDefault)
    } else if do_differ(own, other) {
        Some(LinkWhy::FixedDiffers)
    } else {
        None
    }
}

/// The simple types, all made, and the global attributes by their names.
#[derive(Drop)]
struct Known<'a, 'm> {
    numbers: SimpleNumbers<'a>,
    simples: &'m [Simple],
    declared: DeclaredNames<'a>,
}

impl<'a, 'm> Known<'a, 'm> {
    // Returns a value constraint in the canonical spelling of the type. Without one, the type isn't searched for.
    fn spelled(
        &self,
        alloc: Global,
        file: u32,
        base: &'a RawBase,
        standard: &Standard,
    ) -> Result<Option<Standard>, Memory>
        requires { AreSound self.now.simples.now }
        ensures { IfOk result (λ found. found ≡ rule.by_base (told_by self.now.numbers) (made_of self.now.simples.now) (found_in self.now.declared) file (base_of base.now) standard.now) }
    {
        if let Standard::Free = standard {
            return Ok(Some(Standard::Free));
        }
        match made_type(alloc, &self.numbers, self.simples, file, base)? {
            Some(part) => in_spelling(alloc, part.simple(), standard),
            None => Ok(None),
        }
    }

    fn why_own(
        &self,
        alloc: Global,
        file: u32,
        base: &'a RawBase,
        standard: &Standard,
    ) -> Result<Option<LinkWhy>, Memory>
        requires { AreSound self.now.simples.now }
        ensures { IfOk result (λ found. found ≡ rule.why_own (told_by self.now.numbers) (made_of self.now.simples.now) (found_in self.now.declared) file (base_of base.now) standard.now) }
    {
        let own = self.spelled(alloc, file, base, standard)?;
        let free = Some(Standard::Free);
        Ok(why(&own, &free))
    }

    fn why_reference(
        &self,
        alloc: Global,
        named: Declared<'a>,
        standard: &Standard,
    ) -> Result<Option<LinkWhy>, Memory>
        requires { AreSound self.now.simples.now }
        ensures { IfOk result (λ found. found ≡ rule.why_reference (told_by self.now.numbers) (made_of self.now.simples.now) (found_in self.now.declared) (Some (declared_as named.entry)) standard.now) }
    {
        if let Standard::Free = standard {
            return Ok(None);
        }
        let kind = &named.attribute.kind;
        let own = self.spelled(alloc, named.file, kind, standard)?;
        let other = self.spelled(alloc, named.file, kind, &named.attribute.standard)?;
        Ok(why(&own, &other))
    }

    fn why_use(
        &self,
        alloc: Global,
        file: u32,
        attribute: &'a RawUse,
    ) -> Result<Option<LinkWhy>, Memory>
        requires { AreSound self.now.simples.now }
        ensures { IfOk result (λ found. found ≡ rule.why_use (told_by self.now.numbers) (made_of self.now.simples.now) (found_in self.now.declared) file (use_of attribute.now) (option_map base_of attribute.now.kind)) }
    {
        match &attribute.kind {
            Some(base) => self.why_own(alloc, file, base, &attribute.standard),
            None => match self.declared.first(&attribute.name) {
                Some(named) => self.why_reference(alloc, named, &attribute.standard),
                None => Ok(None),
            },
        }
    }

    fn why_part(&self, alloc: Global, part: Part<'a>) -> Result<Option<LinkWhy>, Memory>
        requires { AreSound self.now.simples.now }
        ensures { IfOk result (λ found. found ≡ rule.why_what (told_by self.now.numbers) (made_of self.now.simples.now) (found_in self.now.declared) part.entry.file (what_of part.entry.what)) }
    {
        match part.what {
            What::GlobalAttribute(attribute) => {
                self.why_own(alloc, part.file, &attribute.kind, &attribute.standard)
            }
            What::AttributeUse(attribute) => self.why_use(alloc, part.file, attribute),
            _ => Ok(None),
        }
    }

    fn first_among(&self, alloc: Global, parts: &[Part<'a>]) -> Result<Option<LinkingFault>, Memory>
        requires { AreSound self.now.simples.now }
        ensures { IfOk result (λ found. IsFirstOf (filter_map (rule.fault_of (told_by self.now.numbers) (made_of self.now.simples.now) (found_in self.now.declared)) (parts_of parts.now)) found) }
    {
        let mut found = None;
        'parts: for part in parts {
            let misfit = self.why_part(alloc, *part)?;
            if let Some(why) = misfit {
                let fault = LinkingFault {
                    place: Place {
                        file: part.file,
                        at: part.at,
                    },
                    why,
                };
                found = earlier(found, fault);
            }
        }
        Ok(found)
    }
}

/// Returns the first attribute whose type doesn't accept its default or fixed value, or that refers to a fixed attribute and has
/// another value constraint. No simple type of the documents is made of itself, and `simples` has all of them, in the order of
/// `link_names::simple_types`. The time grows as n log n with the number of attributes and types. In addition each text is read
/// and spelled: that of a global attribute once, and again for each reference that has one of its own.
pub fn first_misfit(
    alloc: Global,
    docs: &[RawDoc],
    simples: &[Simple],
) -> Result<Option<LinkingFault>, Memory>
    requires acyclic { IsFirstSuch (IsCircular (map doc_of docs.now)) None }
    requires made { IsMaking (definitions (map doc_of docs.now)) (made_of simples.now) }
    requires sound { AreSound simples.now }
    ensures { IfOk result (λ found. IsFirstSuch (rule.IsMisfit (map doc_of docs.now)) found) }
{
    let definitions = simple_types(alloc, docs)?;
    let numbers = SimpleNumbers::of(alloc, &definitions)?;
    let parts = all_parts(alloc, docs)?;
    let parts = parts.as_slice();
    let declared = DeclaredNames::of(alloc, parts)?;
    let known = Known {
        numbers,
        simples,
        declared,
    };
    known.first_among(alloc, parts)
}
