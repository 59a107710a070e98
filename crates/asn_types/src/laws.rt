//! Laws of references and of the types of a module. Each is proved for all modules and types.
ghost use Rattle.asn_types.specs.Laws.{PartKeepsReferences, ReferenceTakesOne, TypeHasFour, ResolvedIsNoReference, TypesAreWellFormed, PartsAreOfTheModule, TypesHaveTheirParts, ResolvedIsOfTheModule};

/// States how many references may follow one another. A part that is not an element inherits the number of its type, a reference
/// uses one, and each element may again have four. So `resolve` always reaches a type that is not a reference.
pub fn references()
    ensures part { PartKeepsReferences }
    ensures reference { ReferenceTakesOne }
    ensures all { TypeHasFour }
    ensures resolved { ResolvedIsNoReference }
{}

/// States that the parts of a module's types, and the types that their references reach, are types of the module.
pub fn types_of_modules()
    ensures well_formed { TypesAreWellFormed }
    ensures parts { PartsAreOfTheModule }
    ensures all { TypesHaveTheirParts }
    ensures resolved { ResolvedIsOfTheModule }
{}
