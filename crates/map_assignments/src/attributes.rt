//! Attribute uses, and the types of components that have a simple type.
ghost use Rattle.std.specs.Prelude.{◌≡◌, ◌<◌, IfOk, OnOk, length, All};
ghost use Rattle.schema_components.specs.Linked.{IsLinked, IsUse};
ghost use Rattle.map_assignments.specs.Plans.{Parts};
ghost use Rattle.map_assignments.specs.Planning as plan;
ghost use Rattle.map_assignments.specs.Naming.{IsNamed};
ghost use Rattle.map_assignments.specs.Private.Placing.{place_of};
ghost use Rattle.map_assignments.specs.Private.Building.{LeadsToNamed};

use crate::mapper::Mapper;
use crate::parts::PartList;
use crate::simple::simple_type;
use asn_types::TypeLabel;
use base_texts::Memory;
use base_trees::Tree;
use map_subjects::Subject;
use schema_components::AttributeUse;

impl Mapper<'_> {
    /// Returns the type of a component that has the simple type with this number: a reference to its assignment, or the type in
    /// place.
    pub(crate) fn simple_at(self, n: u32) -> Result<Tree<TypeLabel>, Memory>
        requires linked { IsLinked self.set.now }
        requires number { n < length self.set.now.simples }
        ensures { IfOk result (λ made. IsNamed (place_of self.entry.places.now) (plan.simple_type self.entry.set.now n) made) }
    {
        let definition = self.set.simple(n);
        match definition.name {
            Some(_) => Ok(self.places.reference(self.alloc, Subject::Simple(n))),
            None => simple_type(self.alloc, &definition.space),
        }
    }

    /// Adds the components of these attribute uses after the parts so far.
    pub(crate) fn push_attributes(
        self,
        parts: &mut PartList,
        uses: &[AttributeUse],
    ) -> Result<(), Memory>
        requires linked { IsLinked self.set.now }
        requires uses { All (IsUse self.set.now) uses.now }
        ensures { OnOk result ((rest whole : Parts) → LeadsToNamed (place_of self.entry.places.now) parts.old (plan.attributes self.entry.set.now uses.now rest) whole → LeadsToNamed (place_of self.entry.places.now) parts.new rest whole) }
    {
        'uses: for attribute in uses {
            let kid = self.simple_at(attribute.simple)?;
            parts.push_attribute(attribute, kid)?;
        }
        Ok(())
    }
}
