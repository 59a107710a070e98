//! The law of matching.
ghost use Rattle.content_models.specs.SpotLaws.{LawOfMatching};

/// States the law of matching for a clear content model that may occur. A step finds the next leaf if and only if some list
/// begins with the names so far and this one. A spot needs nothing more if and only if the names so far are those of a
/// complete list.
pub fn law_of_matching()
    ensures { LawOfMatching }
{}
