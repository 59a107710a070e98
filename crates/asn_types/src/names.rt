//! The XML names of parts and assignments, given by NAME and NAMESPACE (X.693).
ghost use Rattle.std.specs.Prelude.{◌≡◌, Some, [], IfOk, MatchOption};
ghost use Rattle.asn_types.specs.Names as names;
ghost use Rattle.asn_types.specs.Private.Saying.{name_in, space_in};

use crate::marks::{Instruction, Marks};
use crate::modules::Assignment;
use crate::types::Component;
use base_texts::{Memory, Name, Text};
use std::alloc::Global;

impl Instruction {
    // Returns the name that this instruction gives as a NAME. Any other instruction gives the generated name.
    #[inline(always)]
    fn name_or<'a>(&'a self, generated: &'a Text) -> &'a Text
        ensures { result.now ≡ name_in generated.now (Some self.now) }
    {
        match self {
            Instruction::Name(name) => name,
            _ => generated,
        }
    }

    // Returns the namespace that this instruction gives as a NAMESPACE.
    #[inline(always)]
    fn namespace(&self) -> Option<&Text>
        ensures { MatchOption result (space_in (Some self.now) ≡ []) (λ space. space_in (Some self.now) ≡ space.now) }
    {
        match self {
            Instruction::Namespace(space) => Some(space),
            _ => None,
        }
    }
}

impl Marks {
    /// Returns the local name for this generated name: that of the first NAME, or the generated name itself.
    #[inline(always)]
    pub fn local_name<'a>(&'a self, generated: &'a Text) -> &'a Text
        ensures { result.now ≡ names.local_told generated.now self.now }
    {
        match self.first_name() {
            Some(mark) => mark.name_or(generated),
            None => generated,
        }
    }

    /// Returns the namespace of the first NAMESPACE. None if there is none: the name is in no namespace.
    #[inline(always)]
    pub fn namespace(&self) -> Option<&Text>
        ensures { MatchOption result (names.space_told self.now ≡ []) (λ space. names.space_told self.now ≡ space.now) }
    {
        match self.first_namespace() {
            Some(mark) => mark.namespace(),
            None => None,
        }
    }

    // Returns the XML name for this generated name. It allocates nothing.
    fn name_of(&self, alloc: Global, generated: &Text) -> Result<Name, Memory>
        ensures { IfOk result (λ name. name ≡ names.name_told generated.now self.now) }
    {
        let space = match self.namespace() {
            Some(space) => space.copy(alloc)?,
            None => Text::empty(),
        };
        let local = self.local_name(generated).copy(alloc)?;
        Ok(Name { space, local })
    }
}

impl Component {
    /// Returns the name of the element or attribute that the component represents, if it represents one. It allocates nothing.
    pub fn name(&self, alloc: Global) -> Result<Name, Memory>
        ensures { IfOk result (λ name. name ≡ names.name_of_part self.now) }
    {
        self.marks.name_of(alloc, &self.identifier)
    }
}

impl Assignment {
    /// Returns the name of the element or attribute that the assignment represents, if it represents one. It allocates nothing.
    pub fn name(&self, alloc: Global) -> Result<Name, Memory>
        ensures { IfOk result (λ name. name ≡ names.name_told self.now.reference self.now.marks) }
    {
        self.marks.name_of(alloc, &self.reference)
    }
}
