//! Laws of the components of one schema document.
ghost use Rattle.schema_components.specs.declared.documents.RawDoc.{RawDoc};
ghost use Rattle.schema_components.specs.Documents.{doc_of};
ghost use Rattle.schema_components.specs.TypedUses.{AreTyped};

/// States that in each document an attribute use is a reference if and only if it has no type of its own.
pub fn uses_are_typed()
    ensures { (d : RawDoc) → AreTyped (doc_of d) }
{}
