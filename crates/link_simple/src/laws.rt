//! Laws of the making of simple types. Each is proved for all bases, facets and documents.
ghost use Rattle.std.specs.Prelude.{◌≡◌, List, Option, None, Result};
ghost use Rattle.simple_types.specs.declared.facets.Facet.{Facet};
ghost use Rattle.simple_types.specs.Space.{Space};
ghost use Rattle.simple_facets.specs.declared.refusals.FacetWhy.{FacetWhy};
ghost use Rattle.simple_facets.specs.Restricting.{Restricted};
ghost use Rattle.schema_components.specs.Raw.{Document};
ghost use Rattle.link_names.specs.Order.{IsFirstSuch};
ghost use Rattle.link_names.specs.Cycles.{IsCircular};
ghost use Rattle.link_names.specs.SimpleTypes.{simple_types};
ghost use Rattle.link_simple.specs.Making.{IsMaking};

/// States that restricting a base by facets results in exactly one space, or exactly one reason against them, and never in both.
pub fn one_restriction()
    ensures some { (base : Space) (facets : List Facet) → (r : Result Space FacetWhy) × Restricted base facets r }
    ensures only { (base : Space) (facets : List Facet) (r q : Result Space FacetWhy) → Restricted base facets r → Restricted base facets q → r ≡ q }
{}

/// States that, if no simple type of the documents is made of itself, there is exactly one list of their spaces.
pub fn one_making()
    ensures some { (docs : List Document) → IsFirstSuch (IsCircular docs) None → (made : List (Option Space)) × IsMaking (simple_types docs) made }
    ensures only { (docs : List Document) → IsFirstSuch (IsCircular docs) None → (a b : List (Option Space)) → IsMaking (simple_types docs) a → IsMaking (simple_types docs) b → a ≡ b }
{}
