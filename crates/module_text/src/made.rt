//! Parts and types, made from what is read.
ghost use Rattle.std.specs.Prelude.{◌≡◌, ◌++◌, ◌∷◌, [], IfOk};
ghost use Rattle.module_text.specs.Made.{part_of, formed, typed_as};

use crate::bounds::PlainEnds;
use crate::boxes::Boxed;
use crate::marks::{PartMark, TypeMark};
use crate::types::{PlainForm, PlainLabel, PlainName, PlainPart};
use crate::values::{Absence, PlainOctets};
use crate::written::PlainList;
use base_texts::Text;
use base_trees::Tree;
use std::alloc::{AllocError, Global};

/// What is read of a part before its type.
#[derive(Drop)]
pub struct PartHead {
    pub at: u64,
    pub identifier: Text,
    pub marks: PlainList<PartMark>,
}

impl PartHead {
    /// Returns the part, with the fixed value and the absence that follow its type.
    pub fn ended(
        self,
        alloc: Global,
        fixed: Option<PlainOctets>,
        absence: Absence,
    ) -> Result<Boxed<PlainPart>, AllocError>
        ensures { IfOk result (λ part. part ≡ part_of self fixed absence) }
    {
        Boxed::new(
            alloc,
            PlainPart {
                at: self.at,
                identifier: self.identifier,
                marks: self.marks,
                fixed,
                absence,
            },
        )
    }
}

/// Parts, and their types in the order of the parts.
#[derive(Drop)]
pub struct Parts {
    pub parts: Vec<PlainPart>,
    pub types: Vec<Tree<PlainLabel>>,
}

impl Parts {
    /// Returns no parts. It allocates nothing.
    pub fn new(alloc: Global) -> Parts
        ensures { (result.parts.items ≡ []) × (result.types.items ≡ []) }
    {
        Parts {
            parts: Vec::new(alloc),
            types: Vec::new(alloc),
        }
    }

    /// Returns these parts and, after them, one more with its type.
    pub fn with(
        self,
        part: Boxed<PlainPart>,
        tree: Boxed<Tree<PlainLabel>>,
    ) -> Result<Parts, AllocError>
        ensures { IfOk result (λ more. (more.parts.items ≡ self.parts.items ++ part ∷ []) × (more.types.items ≡ self.types.items ++ tree ∷ [])) }
    {
        let mut parts = self.parts;
        let mut types = self.types;
        parts.push(part.into_inner())?;
        types.push(tree.into_inner())?;
        Ok(Parts { parts, types })
    }
}

/// A type without the types of its parts.
#[derive(Drop)]
pub enum BoxedForm {
    /// A type without parts.
    Simple {
        form: Boxed<PlainForm>,
    },
    Sequence {
        parts: PlainList<PlainPart>,
    },
    Choice {
        parts: PlainList<PlainPart>,
    },
    SequenceOf {
        size: Option<PlainEnds>,
        part: Boxed<PlainPart>,
    },
    Ref {
        reference: PlainName,
    },
}

impl BoxedForm {
    /// Returns the form without boxes.
    pub fn plain(self) -> PlainForm
        ensures { result ≡ formed self }
    {
        match self {
            BoxedForm::Simple { form } => form.into_inner(),
            BoxedForm::Sequence { parts } => PlainForm::Sequence { parts },
            BoxedForm::Choice { parts } => PlainForm::Choice { parts },
            BoxedForm::SequenceOf { size, part } => PlainForm::SequenceOf {
                size,
                part: part.into_inner(),
            },
            BoxedForm::Ref { reference } => PlainForm::Ref { reference },
        }
    }
}

/// Returns a type with the types of its parts.
pub fn join(
    alloc: Global,
    at: u64,
    marks: PlainList<TypeMark>,
    form: BoxedForm,
    kids: Vec<Tree<PlainLabel>>,
) -> Result<Boxed<Tree<PlainLabel>>, AllocError>
    ensures { IfOk result (λ tree. tree ≡ typed_as at marks (formed form) kids.items) }
{
    let label = PlainLabel {
        at,
        marks,
        form: form.plain(),
    };
    Boxed::new(alloc, Tree::join(label, kids))
}
