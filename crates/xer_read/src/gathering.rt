//! The values of child elements that come in any order, until all have come.
ghost use Rattle.std.specs.Prelude.{◌≡◌, ◌∷◌, ◌++◌, ◌+◌, [], ◌≤◌, ℕ, List, Option, None, Some, true, OnOk, IfOk, slice_get};
ghost use Rattle.base_trees.specs.Rose.{Rose};
ghost use Rattle.base_flat_trees.specs.Zips.{added};
ghost use Rattle.simple_types.specs.declared.labels.ValueLabel.{ValueLabel};
ghost use Rattle.content_models.specs.Seen.{seen};
ghost use Rattle.map_assignments.specs.Planning.{is_all};
ghost use Rattle.value_contents.specs.Made.{Child};
ghost use Rattle.value_builder.specs.Built.{nothing_of, Stands, Puts, with_parts};
ghost use Rattle.xer_read.specs.Private.Slots.{no_slots, filled_at, flags_of, values_of, Keeps, AreSlots, AllFit};

use base_texts::Memory;
use content_match::Matcher;
use content_models::Particle;
use std::alloc::Global;
use value_builder::ValueBuilder;

/// A slot for each particle of an all, with the value of its child element if one came; and the numbers of the particles in the
/// order in which child elements came. Where no node may be kept there is neither. All values together keep no more nodes than
/// the value that they are parts of may have: where one has more than are left, its nodes are counted alone.
#[derive(Drop)]
pub(crate) struct Gathered {
    most: u32,
    // The number of nodes outside.
    outside: u64,
    // The number of nodes of the values.
    nodes: u64,
    slots: Vec<Option<ValueBuilder>>,
    numbers: Vec<u32>,
}

/// A matcher of an all after some child elements, and what is gathered of them.
#[derive(Drop)]
pub(crate) struct Gathering<'a> {
    pub matcher: Matcher<'a>,
    pub gathered: Gathered,
}

impl Gathered {
    /// Returns empty slots. The values of child elements will be appended to these values.
    pub(crate) fn new(
        alloc: Global,
        model: &Particle,
        values: &ValueBuilder,
    ) -> Result<Gathered, Memory>
        requires { is_all (seen model.now) ≡ true }
        ensures most { IfOk result (λ gathered. gathered.most ≡ values.now.most) }
        ensures outside { IfOk result (λ gathered. gathered.outside ≡ values.now.nodes) }
        ensures keeps { IfOk result (λ gathered. Keeps gathered [] (no_slots (seen model.now))) }
    {
        let most = values.most();
        let mut slots = Vec::new(alloc);
        if most > 0 {
            let count = model.root().kids().len();
            'kids: while slots.len() < count {
                slots.push(None)?;
            }
        }
        Ok(Gathered {
            most,
            outside: values.count(),
            nodes: 0,
            slots,
            numbers: Vec::new(alloc),
        })
    }

    /// Returns the number of nodes that the value of the next child element may have. It is at least 1, so nodes are counted.
    pub(crate) fn left(&self) -> u32
        ensures some { 1 ≤ self.now.most → 1 ≤ result }
        ensures room { self.now.most ≤ result + (self.now.outside + self.now.nodes) }
    {
        let most = u64::from(self.most);
        let used = self.outside.saturating_add(self.nodes);
        if most <= used {
            self.most.min(1)
        } else {
            (most - used) as u32
        }
    }

    /// Returns the numbers of the particles in the order of their child elements.
    pub(crate) fn numbers(&self) -> &[u32]
        ensures { result.now ≡ self.now.numbers.items }
    {
        &self.numbers
    }

    /// Keeps the value of the child element of the particle with this number.
    pub(crate) fn keep(&mut self, number: u32, value: ValueBuilder) -> Result<(), Memory>
        requires empty { 1 ≤ self.old.most → slice_get self.old.slots.items number ≡ Some None }
        requires some { 1 ≤ self.old.most → 1 ≤ value.most }
        requires room { self.old.most ≤ value.most + (self.old.outside + self.old.nodes) }
        ensures most { OnOk result (self.new.most ≡ self.old.most) }
        ensures outside { OnOk result (self.new.outside ≡ self.old.outside) }
        ensures keeps { OnOk result ((numbers : List ℕ) (children : List (Option Child)) (child : Child) → Keeps self.old numbers children
            → Stands value (added child.value (nothing_of 0).kept) → Keeps self.new (numbers ++ number ∷ []) (filled_at children number child)) }
    {
        if self.most == 0 {
            return Ok(());
        }
        self.numbers.push(number)?;
        self.nodes = self.nodes.saturating_add(value.count());
        let slot = number as usize;
        self.slots[slot] = Some(value);
        Ok(())
    }

    /// Appends a part for each particle, in the order of the particles.
    pub(crate) fn put_parts(self, values: &mut ValueBuilder) -> Result<(), Memory>
        requires most { self.most ≡ values.old.most }
        requires outside { 1 ≤ values.old.most → self.outside ≤ values.old.nodes }
        requires keeps { (numbers : List ℕ) × (children : List (Option Child)) × Keeps self numbers children }
        ensures { OnOk result ((numbers : List ℕ) (children : List (Option Child)) → Keeps self numbers children
            → Puts (with_parts (flags_of children) (values_of children)) values.old values.new) }
    {
        if values.keeps_nothing() {
            return Ok(());
        }
        if values.has_room(self.nodes) {
            put_slots(self.slots, values)
        } else {
            values.count_alone(self.nodes);
            Ok(())
        }
    }
}

// Appends a part for each particle.
fn put_slots(slots: Vec<Option<ValueBuilder>>, values: &mut ValueBuilder) -> Result<(), Memory>
    requires slots { (children : List (Option Child)) × AreSlots slots.items children }
    requires fit { AllFit slots.items }
    ensures { OnOk result ((children : List (Option Child)) → AreSlots slots.items children
        → Puts (with_parts (flags_of children) (values_of children)) values.old values.new) }
{
    'slots: for slot in slots {
        put_slot(slot, values)?;
    }
    Ok(())
}

// Appends the part for a particle: the value of its child element, or none.
fn put_slot(slot: Option<ValueBuilder>, values: &mut ValueBuilder) -> Result<(), Memory>
    requires slot { (child : Option Child) × AreSlots (slot ∷ []) (child ∷ []) }
    requires fit { AllFit (slot ∷ []) }
    ensures { OnOk result ((child : Option Child) → AreSlots (slot ∷ []) (child ∷ [])
        → Puts (with_parts (flags_of (child ∷ [])) (values_of (child ∷ []))) values.old values.new) }
{
    match slot {
        None => values.part(false),
        Some(value) => {
            values.part(true)?;
            values.append(value)
        }
    }
}
