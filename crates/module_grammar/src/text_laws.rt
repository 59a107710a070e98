//! The law of readers, for a small language that uses each of them.
ghost use Rattle.module_grammar.specs.Nested.{NestedExact};

/// States that exactly the texts are read. For other bytes a place is given: up to which they begin one, or at which a node is
/// nested too deep.
pub fn nested_exact()
    ensures { NestedExact }
{}
