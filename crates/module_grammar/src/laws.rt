//! The law of each reader.
ghost use Rattle.module_grammar.specs.NamesRead.{NamesRead, BoundsRead};
ghost use Rattle.module_grammar.specs.TextsRead.{AllTextsRead};
ghost use Rattle.module_grammar.specs.ModulesRead.{ModulesExact};
ghost use Rattle.module_grammar.specs.MarksRead.{MarksRead};
ghost use Rattle.module_grammar.specs.ValuesRead.{ValuesSink};

/// States that exactly the names, numbers, quoted texts and octets are read, each in full.
pub fn names_are_read()
    ensures { NamesRead }
{}

/// States that exactly the bounds and constraints are read.
pub fn bounds_are_read()
    ensures { BoundsRead }
{}

/// States that exactly the values are read, and that the first that is nested too deep is given.
pub fn values_are_read()
    ensures { ValuesSink }
{}

/// States that exactly the encoding instructions are read, in the order of their ranks.
pub fn marks_are_read()
    ensures { MarksRead }
{}

/// States that exactly the texts of modules are read. For other bytes a place is given: up to which they begin one, or at which a
/// type or a value is nested too deep.
pub fn modules_are_read()
    ensures { ModulesExact }
{}

/// States that the reader gives of bytes what the grammar states of them. They are the text of assignments, or only a longest
/// prefix of them begins one, or something in them is nested too deep.
pub fn texts_are_read()
    ensures { AllTextsRead }
{}
