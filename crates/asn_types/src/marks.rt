//! Encoding instructions.
ghost use Rattle.std.specs.Prelude.{◌≡◌, ◌↔◌, ◌∷◌, [], IfOk, IsTrue, MatchOption, Some, None, slice_get};
ghost use Rattle.asn_types.specs.Marks as marked;
ghost use Rattle.asn_types.specs.Private.Saying.{name_place, namespace_place};
ghost use Rattle.asn_types.specs.Simples.{counting, white_space_marks};
ghost use Rattle.asn_types.specs.Private.Telling as telling;

use crate::said::Said;
use base_texts::{Memory, Text, WhiteSpace};
use std::alloc::Global;
use std::marker::Model;

/// An encoding instruction of EXTENDED-XER (X.693), a prefix of a type, a component or an assignment.
#[derive(Drop)]
pub enum Instruction {
    /// The value is an attribute.
    Attribute,
    /// The value has no tag of its own.
    Untagged,
    /// The local name of the element or attribute.
    Name(Text),
    /// The namespace of the element or attribute.
    Namespace(Text),
    /// An absent last component means `xsi:nil`.
    UseNil,
    /// The first component has the texts between the child elements.
    EmbedValues,
    /// The first component, or the second after that of EMBED-VALUES, has the order of the child elements.
    UseOrder,
    /// The items are words of one text.
    List,
    /// The text alone determines the alternative.
    UseUnion,
    /// The items of an ENUMERATED are written as their numbers.
    UseNumber,
    /// How the white space of a text is treated before it is read.
    WhiteSpace(WhiteSpace),
    /// The text of the item of an ENUMERATED with this number, from 0.
    Text { item: u32, text: Text },
}

impl Instruction {
    fn copy(&self, alloc: Global) -> Result<Instruction, Memory>
        ensures { IfOk result (λ mark. mark ≡ self.now) }
    {
        match self {
            Instruction::Attribute => Ok(Instruction::Attribute),
            Instruction::Untagged => Ok(Instruction::Untagged),
            Instruction::Name(name) => {
                let name = name.copy(alloc)?;
                Ok(Instruction::Name(name))
            }
            Instruction::Namespace(space) => {
                let space = space.copy(alloc)?;
                Ok(Instruction::Namespace(space))
            }
            Instruction::UseNil => Ok(Instruction::UseNil),
            Instruction::EmbedValues => Ok(Instruction::EmbedValues),
            Instruction::UseOrder => Ok(Instruction::UseOrder),
            Instruction::List => Ok(Instruction::List),
            Instruction::UseUnion => Ok(Instruction::UseUnion),
            Instruction::UseNumber => Ok(Instruction::UseNumber),
            Instruction::WhiteSpace(how) => Ok(Instruction::WhiteSpace(*how)),
            Instruction::Text { item, text } => {
                let text = text.copy(alloc)?;
                Ok(Instruction::Text { item: *item, text })
            }
        }
    }
}

/// The encoding instructions of a type except NAME and TEXT, which do not affect a simple type.
#[derive(Clone, Copy)]
pub(crate) enum Told {
    Nothing,
    UseNumber,
    List,
    UseUnion,
    WhiteSpace(WhiteSpace),
    /// Another instruction, or more than one.
    Other,
}

impl Told {
    // Returns the summary with one more instruction.
    fn with(self, mark: &Instruction) -> Told
        ensures { result ≡ telling.with_mark self mark.now }
    {
        match mark {
            Instruction::Name(_) => self,
            Instruction::Text { .. } => self,
            _ => match self {
                Told::Nothing => mark.alone(),
                _ => Told::Other,
            },
        }
    }
}

impl Instruction {
    // Returns the summary of this instruction alone.
    fn alone(&self) -> Told
        ensures { result ≡ telling.alone self.now }
    {
        match self {
            Instruction::UseNumber => Told::UseNumber,
            Instruction::List => Told::List,
            Instruction::UseUnion => Told::UseUnion,
            Instruction::WhiteSpace(how) => Told::WhiteSpace(*how),
            _ => Told::Other,
        }
    }
}

/// Encoding instructions, in their order. They are summarised once when the list is built, so each query takes constant time.
#[derive(Drop)]
pub struct Marks {
    entries: Vec<Instruction>,
    // Every part of every value queries it, and an ENUMERATED may have many TEXT instructions.
    said: Said,
}

impl Model for Marks {
    ghost use Rattle.std.specs.Prelude.{List};
    ghost use Rattle.asn_types.specs.declared.marks.Instruction.{Instruction};
    ghost use Rattle.asn_types.specs.Private.Saying.{IsSaid};

    ghost Value = { List Instruction };

    ghost view = { λ a. a.entries.items };

    ghost invariant = { λ a. IsSaid a.entries.items 0 a.said };
}

impl Marks {
    pub fn of(entries: Vec<Instruction>) -> Marks
        ensures { result ≡ entries.items }
    {
        let said = Said::of(&entries);
        Marks { entries, said }
    }

    #[inline(always)]
    pub fn items(&self) -> &[Instruction]
        ensures { result.now ≡ self.now }
    {
        &self.entries
    }

    /// Returns equal instructions.
    pub fn copy(&self, alloc: Global) -> Result<Marks, Memory>
        ensures { IfOk result (λ marks. marks ≡ self.now) }
    {
        let entries = self.items();
        let mut copies = Vec::with_capacity(alloc, entries.len())?;
        'marks: for mark in entries {
            let copied = mark.copy(alloc)?;
            copies.push_reserved(copied);
        }
        Ok(Marks::of(copies))
    }

    /// Returns whether ATTRIBUTE is among them.
    #[inline(always)]
    pub fn has_attribute(&self) -> bool
        ensures { result ≡ marked.has_attribute self.now }
    {
        self.said.attribute
    }

    /// Returns whether UNTAGGED is among them.
    #[inline(always)]
    pub fn has_untagged(&self) -> bool
        ensures { result ≡ marked.has_untagged self.now }
    {
        self.said.untagged
    }

    /// Returns whether USE-NIL is among them.
    #[inline(always)]
    pub fn has_use_nil(&self) -> bool
        ensures { result ≡ marked.has_use_nil self.now }
    {
        self.said.use_nil
    }

    /// Returns whether EMBED-VALUES is among them.
    #[inline(always)]
    pub fn has_embed_values(&self) -> bool
        ensures { result ≡ marked.has_embed_values self.now }
    {
        self.said.embed_values
    }

    /// Returns whether USE-ORDER is among them.
    #[inline(always)]
    pub fn has_use_order(&self) -> bool
        ensures { result ≡ marked.has_use_order self.now }
    {
        self.said.use_order
    }

    /// Returns whether LIST is among them.
    #[inline(always)]
    pub fn has_list(&self) -> bool
        ensures { result ≡ marked.has_list self.now }
    {
        self.said.list
    }

    /// Returns whether USE-UNION is among them.
    #[inline(always)]
    pub fn has_use_union(&self) -> bool
        ensures { result ≡ marked.has_use_union self.now }
    {
        self.said.use_union
    }

    /// Returns the treatment of the first WHITESPACE, or to preserve if there is none.
    #[inline(always)]
    pub fn white_space(&self) -> WhiteSpace
        ensures { result ≡ marked.white_space_of self.now }
    {
        self.said.white_space
    }

    // Returns the first NAME, if there is one.
    #[inline(always)]
    pub(crate) fn first_name(&self) -> Option<&Instruction>
        ensures { MatchOption result (slice_get self.now (name_place self.now) ≡ None) (λ mark. slice_get self.now (name_place self.now) ≡ Some mark.now) }
    {
        self.entries.as_slice().get(self.said.name_at)
    }

    // Returns the first NAMESPACE, if there is one.
    #[inline(always)]
    pub(crate) fn first_namespace(&self) -> Option<&Instruction>
        ensures { MatchOption result
            (slice_get self.now (namespace_place self.now) ≡ None)
            (λ mark. slice_get self.now (namespace_place self.now) ≡ Some mark.now) }
    {
        self.entries.as_slice().get(self.said.namespace_at)
    }

    /// Returns the summary of the instructions except NAME and TEXT.
    pub(crate) fn told(&self) -> Told
        ensures { result ≡ telling.told (counting self.now) }
    {
        let mut seen = Told::Nothing;
        'marks: for mark in self.items() {
            seen = seen.with(mark);
        }
        seen
    }

    /// Returns whether all instructions are NAME or TEXT.
    pub(crate) fn tell_nothing(&self) -> bool
        ensures { IsTrue result ↔ (counting self.now ≡ []) }
    {
        matches!(self.told(), Told::Nothing)
    }

    /// Returns whether USE-NUMBER is the only instruction except NAME and TEXT.
    pub(crate) fn tell_use_number(&self) -> bool
        ensures { IsTrue result ↔ (counting self.now ≡ Instruction.UseNumber ∷ []) }
    {
        matches!(self.told(), Told::UseNumber)
    }

    /// Returns whether LIST is the only instruction except NAME and TEXT.
    pub(crate) fn tell_list(&self) -> bool
        ensures { IsTrue result ↔ (counting self.now ≡ Instruction.List ∷ []) }
    {
        matches!(self.told(), Told::List)
    }

    /// Returns whether USE-UNION is the only instruction except NAME and TEXT.
    pub(crate) fn tell_use_union(&self) -> bool
        ensures { IsTrue result ↔ (counting self.now ≡ Instruction.UseUnion ∷ []) }
    {
        matches!(self.told(), Told::UseUnion)
    }

    /// Returns the treatment of white space if that is all they state, except NAME and TEXT: to preserve if there are no others.
    /// None if they state something else.
    pub(crate) fn tell_white_space(&self) -> Option<WhiteSpace>
        ensures { MatchOption result
            ((how : _) → counting self.now ≡ white_space_marks how → ⊥)
            (λ how. counting self.now ≡ white_space_marks how) }
    {
        match self.told() {
            Told::Nothing => Some(WhiteSpace::Preserve),
            Told::WhiteSpace(WhiteSpace::Replace) => Some(WhiteSpace::Replace),
            Told::WhiteSpace(WhiteSpace::Collapse) => Some(WhiteSpace::Collapse),
            _ => None,
        }
    }
}
