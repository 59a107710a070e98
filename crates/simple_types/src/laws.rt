//! The laws of simple types. Each is proved for all types and texts.
ghost use Rattle.std.specs.Prelude.{◌≡◌, ◌⊎◌, ℕ, List, true, IsUtf8, chars};
ghost use Rattle.std.specs.List.{list_all};
ghost use Rattle.base_texts.specs.Characters.{is_xml_char};
ghost use Rattle.base_trees.specs.Rose.{Rose};
ghost use Rattle.simple_types.specs.declared.labels.ValueLabel.{ValueLabel};
ghost use Rattle.simple_types.specs.Space.{Space, Spaces, UnionOf};
ghost use Rattle.simple_types.specs.Sound.{Sound};
ghost use Rattle.simple_types.specs.Chains.{ChainEnds};
ghost use Rattle.simple_types.specs.Reading.{reads, taken_by, spelled, spelled_by, Accepts, TooWide, BadText, Holds};

/// States that for each text exactly one holds: a type accepts it with exactly one value, finds it too wide, or finds that it is
/// no text of the type.
pub fn one_reading()
    ensures some { (s : Space) (text : List ℕ) → ((value : Rose ValueLabel) × Accepts s text value) ⊎ (TooWide s text ⊎ BadText s text) }
    ensures value { (s : Space) (text : List ℕ) (v w : Rose ValueLabel) → Accepts s text v → Accepts s text w → v ≡ w }
    ensures not_wide { (s : Space) (text : List ℕ) (v : Rose ValueLabel) → Accepts s text v → ¬ TooWide s text }
    ensures not_bad { (s : Space) (text : List ℕ) (v : Rose ValueLabel) → Accepts s text v → ¬ BadText s text }
    ensures not_both { (s : Space) (text : List ℕ) → TooWide s text → ¬ BadText s text }
{}

/// States that a value that a type accepts for a text is also accepted for its own spelling.
pub fn accepted_holds()
    ensures { (s : Space) → Sound s → (text : List ℕ) (value : Rose ValueLabel) → Accepts s text value → Holds s value }
{}

/// States that the chain of spellings of a union ends for each text, with the result of the union: each turn that continues it
/// matches an earlier member.
pub fn chain_ends()
    ensures { (members : Spaces) → Sound (UnionOf members) → (text : List ℕ) → ChainEnds (taken_by members) (spelled_by members) text (reads (UnionOf members) text) }
{}

/// States that two values are equal if each is accepted for its own spelling and their spellings are equal.
pub fn one_spelling()
    ensures { (s : Space) (v w : Rose ValueLabel) → Holds s v → Holds s w → spelled s v ≡ spelled s w → v ≡ w }
{}

/// States that the spelling of a value consists of XML characters, if the value is accepted for it. The spelling must be UTF-8,
/// which holds if the texts in the value are.
pub fn spelled_in_xml_characters()
    ensures { (s : Space) → Sound s → (value : Rose ValueLabel) → Holds s value
        → IsUtf8 (spelled s value) → list_all is_xml_char (chars (spelled s value)) ≡ true }
{}
