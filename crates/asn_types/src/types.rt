//! ASN.1 types as trees.
ghost use Rattle.std.specs.Prelude.{◌≡◌, IfOk, length};
ghost use Rattle.asn_types.specs.Parts.{MayHave, parts_of};

use crate::marks::Marks;
use base_texts::{Memory, Text};
use base_trees::Shape;
use simple_types::{Class, NumberList, Standard, TextList};
use std::alloc::Global;
use std::marker::Model;

/// A component of a SEQUENCE, an alternative of a CHOICE or the item of a SEQUENCE OF, without its type.
#[derive(Drop)]
pub struct Component {
    /// Empty for an item of a LIST, for a text between child elements, and for an item of the order of elements.
    pub identifier: Text,
    /// Whether it may be absent from a SEQUENCE.
    pub optional: bool,
    /// Its default or fixed value, if it represents an attribute that has one (X.680, clause 25).
    pub standard: Standard,
    pub marks: Marks,
}

impl Component {
    /// Returns an equal component.
    pub fn copy(&self, alloc: Global) -> Result<Component, Memory>
        ensures { IfOk result (λ component. component ≡ self.now) }
    {
        let identifier = self.identifier.copy(alloc)?;
        let standard = self.standard.copy(alloc)?;
        let marks = self.marks.copy(alloc)?;
        Ok(Component {
            identifier,
            optional: self.optional,
            standard,
            marks,
        })
    }
}

/// Components in their order.
#[derive(Drop)]
pub struct Components {
    entries: Vec<Component>,
}

impl Model for Components {
    ghost use Rattle.std.specs.Prelude.{List};
    ghost use Rattle.asn_types.specs.declared.types.Component.{Component};

    ghost Value = { List Component };

    ghost view = { λ a. a.entries.items };
}

impl Components {
    pub fn of(entries: Vec<Component>) -> Components
        ensures { result ≡ entries.items }
    {
        Components { entries }
    }

    #[inline(always)]
    pub fn items(&self) -> &[Component]
        ensures { result.now ≡ self.now }
    {
        &self.entries
    }

    /// Returns equal components.
    pub fn copy(&self, alloc: Global) -> Result<Components, Memory>
        ensures { IfOk result (λ components. components ≡ self.now) }
    {
        let entries = self.items();
        let mut copies = Vec::with_capacity(alloc, entries.len())?;
        'components: for component in entries {
            let copied = component.copy(alloc)?;
            copies.push_reserved(copied);
        }
        Ok(Components::of(copies))
    }
}

/// A type without the types of its components (X.680).
#[derive(Drop)]
pub enum Form {
    /// BOOLEAN.
    Bool,
    /// INTEGER from `lo` to `hi`.
    Int {
        lo: Option<i128>,
        hi: Option<i128>,
    },
    /// ENUMERATED of items with these numbers.
    Numbers {
        numbers: NumberList,
    },
    /// ENUMERATED of items with these identifiers. The text of each item is the word with its number.
    Words {
        identifiers: TextList,
        words: TextList,
    },
    /// ENUMERATED of items with these identifiers, in this order: the parts that USE-ORDER orders.
    Order {
        identifiers: TextList,
    },
    /// UTF8String of `min` to `max` characters, in a class.
    Utf8 {
        min: u32,
        max: Option<u32>,
        class: Class,
    },
    /// SEQUENCE.
    Sequence {
        parts: Components,
    },
    /// CHOICE.
    Choice {
        parts: Components,
    },
    /// SEQUENCE OF `min` to `max` items.
    SequenceOf {
        part: Component,
        min: u32,
        max: Option<u32>,
    },
    /// The type of the assignment with this number.
    Ref {
        to: u32,
    },
}

impl Form {
    /// Returns an equal form.
    pub fn copy(&self, alloc: Global) -> Result<Form, Memory>
        ensures { IfOk result (λ form. form ≡ self.now) }
    {
        match self {
            Form::Bool => Ok(Form::Bool),
            Form::Int { lo, hi } => Ok(Form::Int { lo: *lo, hi: *hi }),
            Form::Numbers { numbers } => {
                let numbers = numbers.copy(alloc)?;
                Ok(Form::Numbers { numbers })
            }
            Form::Words { identifiers, words } => {
                let identifiers = identifiers.copy(alloc)?;
                let words = words.copy(alloc)?;
                Ok(Form::Words { identifiers, words })
            }
            Form::Order { identifiers } => {
                let identifiers = identifiers.copy(alloc)?;
                Ok(Form::Order { identifiers })
            }
            Form::Utf8 { min, max, class } => Ok(Form::Utf8 {
                min: *min,
                max: *max,
                class: *class,
            }),
            Form::Sequence { parts } => {
                let parts = parts.copy(alloc)?;
                Ok(Form::Sequence { parts })
            }
            Form::Choice { parts } => {
                let parts = parts.copy(alloc)?;
                Ok(Form::Choice { parts })
            }
            Form::SequenceOf { part, min, max } => {
                let part = part.copy(alloc)?;
                Ok(Form::SequenceOf {
                    part,
                    min: *min,
                    max: *max,
                })
            }
            Form::Ref { to } => Ok(Form::Ref { to: *to }),
        }
    }

    /// Returns the number of components, alternatives or items.
    #[inline(always)]
    pub fn part_count(&self) -> usize
        ensures { result ≡ length (parts_of self.now) }
    {
        match self {
            Form::Sequence { parts } => parts.items().len(),
            Form::Choice { parts } => parts.items().len(),
            Form::SequenceOf { .. } => 1,
            _ => 0,
        }
    }
}

/// A type with its encoding instructions, without the types of its components, which are its children.
#[derive(Drop)]
pub struct TypeLabel {
    pub form: Form,
    pub marks: Marks,
}

impl Shape for TypeLabel {
    ghost allowed = { MayHave };

    fn allows(&self, kids: u64) -> bool {
        kids == self.form.part_count() as u64
    }

    fn copy(&self, alloc: Global) -> Result<TypeLabel, Memory> {
        let form = self.form.copy(alloc)?;
        let marks = self.marks.copy(alloc)?;
        Ok(TypeLabel { form, marks })
    }
}
