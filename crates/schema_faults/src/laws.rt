//! Laws of the first fault of a schema document.
ghost use Rattle.std.specs.Prelude.{◌≡◌, ◌⊎◌, ◌↔◌, ℕ, Some, None};
ghost use Rattle.base_trees.specs.Rose.{Rose};
ghost use Rattle.xml_read.specs.Tokens.{tokens, Ascend};
ghost use Rattle.xml_items.specs.declared.label.ItemLabel.{ItemLabel};
ghost use Rattle.schema_syntax.specs.declared.why.SchemaWhy.{SchemaWhy};
ghost use Rattle.schema_faults.specs.Faults.{first_fault, reasons, fault_if};
ghost use Rattle.schema_faults.specs.Shown.{Shown, IsSchema};

/// States that items whose places ascend, as those of every document that is read, either are a schema or have exactly one first
/// fault, and never both.
pub fn one_answer()
    ensures some { (root : Rose ItemLabel) (bound : ℕ) → Ascend 0 bound (tokens root) → IsSchema root ⊎ ((at : ℕ) × (why : SchemaWhy) × Shown root at why) }
    ensures fault { (root : Rose ItemLabel) (bound a b : ℕ) (why other : SchemaWhy) → Ascend 0 bound (tokens root) → Shown root a why → Shown root b other → (a ≡ b) × (why ≡ other) }
    ensures not_both { (root : Rose ItemLabel) (at : ℕ) (why : SchemaWhy) → IsSchema root → Shown root at why → ⊥ }
{}

/// States that, if the places ascend, the first fault in the order of the document is the one at the least place, and a document
/// without a fault is a schema.
pub fn first_is_shown()
    ensures fault { (root : Rose ItemLabel) (bound at : ℕ) (why : SchemaWhy) → Ascend 0 bound (tokens root) → (first_fault (reasons root) ≡ fault_if at (Some why)) ↔ Shown root at why }
    ensures none { (root : Rose ItemLabel) (bound : ℕ) → Ascend 0 bound (tokens root) → (first_fault (reasons root) ≡ None) ↔ IsSchema root }
{}
