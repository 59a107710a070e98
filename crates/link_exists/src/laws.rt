//! The law that documents have a set. It is proved for all documents that are read.
ghost use Rattle.std.specs.Prelude.{◌≡◌, List, map, Some};
ghost use Rattle.simple_types.specs.Space.{Space};
ghost use Rattle.schema_components.specs.Components.{Set};
ghost use Rattle.schema_components.specs.Linked.{IsLinked};
ghost use Rattle.schema_components.specs.Raw.{Document};
ghost use Rattle.link_names.specs.SimpleTypes.{simple_types};
ghost use Rattle.link_simple.specs.Making.{IsMaking};
ghost use Rattle.link_set.specs.Sets.{parts_of, set_of};
ghost use Rattle.link_schemas.specs.Passes.{passes, ArePassed};
ghost use Rattle.link_schemas.specs.Sets.{AreNumbered};
ghost use Rattle.map_laws.specs.Widths.{HasWidths};
ghost use Rattle.link_exists.specs.Reading.{AreRead};

/// States that, if no pass finds a fault, each simple type of the documents is made. Let the files in addition be numbered from 1,
/// in their order. Then for these spaces there is a set of the documents that is linked and within the widths of the code's types.
pub fn sets_of_documents()
    ensures made { (docs : List Document) → AreRead docs → ArePassed docs passes → (spaces : List Space) × IsMaking (simple_types docs) (map Some spaces) }
    ensures linked { (docs : List Document) → AreRead docs → ArePassed docs passes → AreNumbered docs → (spaces : List Space) → IsMaking (simple_types docs) (map Some spaces)
        → (s : Set) × (parts_of s ≡ set_of docs spaces) × IsLinked s × HasWidths s }
{}
