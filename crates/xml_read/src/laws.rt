//! Laws of documents.
ghost use Rattle.std.specs.Prelude.{◌≡◌, ◌<◌, ◌^◌, ◌⊎◌, List, ℕ, length};
ghost use Rattle.base_trees.specs.Rose.{Rose};
ghost use Rattle.xml_items.specs.declared.label.ItemLabel.{ItemLabel};
ghost use Rattle.xml_read.specs.declared.error.DocWhy.{DocWhy};
ghost use Rattle.xml_read.specs.Documents.{DocOf, BrokenAt};
ghost use Rattle.xml_read.specs.Sound.{AreItems};

/// States that bytes are either a document of exactly one tree of items, or have exactly one first fault.
pub fn one_answer()
    ensures tree { (bytes : List ℕ) (x y : Rose ItemLabel) → DocOf bytes x → DocOf bytes y → x ≡ y }
    ensures fault { (bytes : List ℕ) (a b : ℕ) (why other : DocWhy) → BrokenAt bytes a why → BrokenAt bytes b other → (a ≡ b) × (why ≡ other) }
    ensures not_both { (bytes : List ℕ) (x : Rose ItemLabel) (at : ℕ) (why : DocWhy) → DocOf bytes x → BrokenAt bytes at why → ⊥ }
    ensures some { (bytes : List ℕ) → ((x : Rose ItemLabel) × DocOf bytes x) ⊎ ((at : ℕ) × (why : DocWhy) × BrokenAt bytes at why) }
{}

/// States that the tree of a document satisfies the conditions on items. These bound the number of nodes, so the number of bytes
/// is bounded here.
pub fn document_items()
    ensures { (bytes : List ℕ) (root : Rose ItemLabel) → DocOf bytes root → length bytes < 2 ^ 31 → AreItems root }
{}
