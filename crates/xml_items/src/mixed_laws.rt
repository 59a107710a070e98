//! The laws of the children of an element.
ghost use Rattle.xml_items.specs.MixedLaws.{TakesApart, PutsTogether};

/// States that the children of an element are determined by their texts and their child elements, and the other way round.
pub fn mixed_kids()
    ensures apart { TakesApart }
    ensures together { PutsTogether }
{}
