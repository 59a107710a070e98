//! The fields of nodes without children.
ghost use Rattle.std.specs.Prelude.{◌≡◌, ℕ, [], ◌<◌, ◌≤◌, ◌-◌, ◌^◌, ℤ, Bool, true, false, IfOk, IfErr, OnOk, IsErrOf, IsTrue};
ghost use Rattle.base_trees.specs.Rose.{node, none};
ghost use Rattle.base_flat_trees.specs.Zips.{added};
ghost use Rattle.simple_types.specs.Sound.{AreBounds};
ghost use Rattle.simple_types.specs.declared.labels.ValueLabel.TheVariants as value;
ghost use Rattle.simple_types.specs.Lexical.{is_128_bits, is_from, is_to};
ghost use Rattle.per_fields.specs.Laws.{Present};
ghost use Rattle.per_fields.specs.Reading.{each_at};
ghost use Rattle.per_fields.specs.Nodes.{flag_at, bool_at, int_at, enum_at};
ghost use Rattle.per_decode.specs.Private.Reads.{InStep, Reads, Gives};
ghost use Rattle.per_decode.specs.Private.Newest.{newest};

use crate::faults::PerEnd;
use crate::run::{Origin, Run};
use asn_types::Component;
use base_flat_trees::Builder;
use base_texts::Source;
use per_fields::Variant;
use simple_types::{Flags, Integer, ValueLabel};
use std::alloc::Global;

// Appends a node without children.
#[inline(always)]
fn put_leaf(label: ValueLabel, values: &mut Builder<ValueLabel>) -> Result<(), PerEnd>
    ensures ok { OnOk result (values.new ≡ added (node label none) values.old) }
    ensures memory { IfErr result (λ fault. fault ≡ PerEnd.Memory) }
{
    values.leaf(label)?;
    Ok(())
}

impl<'a, S: Source, K: Origin, V: Variant> Run<'a, S, K, V> {
    /// Reads a BOOLEAN.
    #[tactic(auto, unfolding(per_fields::specs::Nodes::bool_at))]
    pub(crate) fn boolean(&mut self, values: &mut Builder<ValueLabel>) -> Result<(), PerEnd>
        requires in_step { InStep self.old }
        ensures reads { Reads self.old self.new result }
        ensures nodes { self.new.nodes ≡ self.old.nodes }
        ensures pushed { OnOk result (values.new ≡ added (newest values.new.kids) values.old) }
        ensures leaf { OnOk result ((b : Bool) × (newest values.new.kids ≡ node (value.Bool b) none)) }
        ensures gives { Gives (λ _. newest values.new.kids) result self.old self.new (bool_at) }
    {
        let begin = self.position();
        let bit = self.take_bits(begin, 1)?;
        put_leaf(ValueLabel::Bool(bit == 1), values)
    }

    /// Reads an INTEGER.
    #[inline(always)]
    #[tactic(auto, unfolding(per_fields::specs::Nodes::int_at))]
    pub(crate) fn integer(
        &mut self,
        lo: Option<i128>,
        hi: Option<i128>,
        values: &mut Builder<ValueLabel>,
    ) -> Result<(), PerEnd>
        requires bounds { AreBounds lo hi }
        requires in_step { InStep self.old }
        ensures reads { Reads self.old self.new result }
        ensures nodes { self.new.nodes ≡ self.old.nodes }
        ensures pushed { OnOk result (values.new ≡ added (newest values.new.kids) values.old) }
        ensures leaf { OnOk result ((z : ℤ) × (newest values.new.kids ≡ node (value.Int z) none) × (is_128_bits z ≡ true) × (is_from lo z ≡ true) × (is_to hi z ≡ true)) }
        ensures gives { Gives (λ _. newest values.new.kids) result self.old self.new (int_at V.ALIGNED lo hi) }
    {
        let z = self.whole(lo, hi)?;
        put_leaf(ValueLabel::Int(Integer::of(z)), values)
    }

    /// Reads one of `items` items of an ENUMERATED.
    #[tactic(auto, unfolding(per_fields::specs::Nodes::enum_at))]
    pub(crate) fn enumerated(
        &mut self,
        items: usize,
        values: &mut Builder<ValueLabel>,
    ) -> Result<(), PerEnd>
        requires some { 1 ≤ items }
        requires few { items < 2 ^ 32 }
        requires in_step { InStep self.old }
        ensures reads { Reads self.old self.new result }
        ensures nodes { self.new.nodes ≡ self.old.nodes }
        ensures pushed { OnOk result (values.new ≡ added (newest values.new.kids) values.old) }
        ensures leaf { OnOk result ((i : ℕ) × (newest values.new.kids ≡ node (value.Enum i) none) × (i < items)) }
        ensures gives { Gives (λ _. newest values.new.kids) result self.old self.new (enum_at V.ALIGNED items) }
    {
        let item = self.number((items - 1) as u128)?;
        put_leaf(ValueLabel::Enum(item as u32), values)
    }

    // Reads whether a component is present.
    #[inline(always)]
    #[tactic(auto, unfolding(per_fields::specs::Nodes::flag_at))]
    fn presence_bit(&mut self, part: &Component) -> Result<bool, PerEnd>
        requires in_step { InStep self.old }
        ensures reads { Reads self.old self.new result }
        ensures nodes { self.new.nodes ≡ self.old.nodes }
        ensures there { IfOk result (λ flag. part.now.optional ≡ false → flag ≡ true) }
        ensures gives { Gives (λ x. x) result self.old self.new (flag_at part.now) }
    {
        if part.optional {
            let begin = self.position();
            let bit = self.take_bits(begin, 1)?;
            return Ok(bit == 1);
        }
        Ok(true)
    }

    /// Reads which components are present.
    #[inline(always)]
    pub(crate) fn presence(
        &mut self,
        alloc: Global,
        parts: &[Component],
        present: &mut Flags,
    ) -> Result<(), PerEnd>
        requires none { present.old ≡ [] }
        requires in_step { InStep self.old }
        ensures reads { Reads self.old self.new result }
        ensures nodes { self.new.nodes ≡ self.old.nodes }
        ensures present { OnOk result (Present parts.now present.new) }
        ensures gives { Gives (λ _. present.new) result self.old self.new (each_at flag_at parts.now) }
    {
        'parts: for part in parts {
            let there = self.presence_bit(part)?;
            present.push(alloc, there)?;
        }
        Ok(())
    }
}
