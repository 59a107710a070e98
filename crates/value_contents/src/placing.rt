//! Moves from one leaf of a content model to the next.
ghost use Rattle.std.specs.Prelude.{◌≡◌, ◌^◌, ◌<◌, ℕ, Bool, List, Some, true, OnOk};
ghost use Rattle.base_trees.specs.Rose.{Rose, node_count};
ghost use Rattle.base_flat_trees.specs.Zips.{Zip};
ghost use Rattle.base_texts.specs.declared.texts.Name.{Name};
ghost use Rattle.simple_types.specs.declared.labels.ValueLabel.{ValueLabel};
ghost use Rattle.content_models.specs.Seen.{seen};
ghost use Rattle.content_models.specs.Spots as spots;
ghost use Rattle.content_models.specs.Spots.{Spot, finishes};
ghost use Rattle.content_models.specs.Clear.{empties, IsNoAll};
ghost use Rattle.content_match.specs.Private.Standing.{spot_of};
ghost use Rattle.value_builder.specs.Built.{Puts};
ghost use Rattle.value_contents.specs.Private.Moves.{turn_in, top_entered, top_moved, top_ended, top_emptied};
ghost use Rattle.content_models.specs.SpotLaws.{step_from, may_end};
ghost use Rattle.content_match.specs.Private.Standing.{spot_now};
ghost use Rattle.value_builder.specs.Built.{Stands, with_parts};
ghost use Rattle.value_contents.specs.Made.{Child, TopMade};
ghost use Rattle.value_contents.specs.Reached.{IsFillable, TopReached, Put};

use crate::emptying::{put_empty_part, put_empty_parts};
use crate::ending::{end, end_parts};
use crate::entering::{enter, enter_parts};
use crate::kinds::is_parted;
use crate::moving::{step, step_parts};
use crate::paths::Path;
use base_texts::Memory;
use base_trees::Tree;
use content_models::{Particle, ParticleLabel};
use value_builder::ValueBuilder;

/// Opens the path to the next leaf of the content model, after the child elements so far. Then the element of the leaf can be
/// appended.
#[inline(always)]
pub fn put_step(
    model: &Particle,
    from: Path<'_>,
    to: Path<'_>,
    values: &mut ValueBuilder,
) -> Result<(), Memory>
    requires fillable { IsFillable (seen model.now) }
    requires few { node_count model.now < 2 ^ 31 }
    requires step { (a : Name) × (s : Spot) × (step_from (seen model.now) (spot_now from.turns.now from.kids.now) a ≡ Some s) × (spot_now to.turns.now to.kids.now ≡ Some s) }
    ensures most { OnOk result (values.new.most ≡ values.old.most) }
    ensures reached { OnOk result ((gs : List Child) (before now : Zip ValueLabel) (s : Spot) → Put (seen model.now) (spot_now from.entry.turns.now from.entry.kids.now) gs before now → Stands values.old now
        → spot_now to.entry.turns.now to.entry.kids.now ≡ Some s → (d : ℕ) × (way : Zip ValueLabel) × TopReached (seen model.now) s gs d before way × Stands values.new way) }
{
    if from.turns.is_empty() {
        put_first(model.root(), to, values)
    } else {
        put_next(model.root(), from, to, values)
    }
}

/// Ends the child elements: closes what is open of the content model, and appends the parts after it as empty.
pub fn put_end(model: &Particle, from: Path<'_>, values: &mut ValueBuilder) -> Result<(), Memory>
    requires fillable { IsFillable (seen model.now) }
    requires few { node_count model.now < 2 ^ 31 }
    requires ends { may_end (seen model.now) (spot_now from.turns.now from.kids.now) ≡ true }
    ensures most { OnOk result (values.new.most ≡ values.old.most) }
    ensures made { OnOk result ((gs : List Child) (before now : Zip ValueLabel) → Put (seen model.now) (spot_now from.entry.turns.now from.entry.kids.now) gs before now → Stands values.old now
        → (flags : List Bool) × (vs : List (Rose ValueLabel)) × TopMade (seen model.now) flags vs gs × Stands values.new (with_parts flags vs before)) }
{
    if from.turns.is_empty() {
        put_none(model.root(), values)
    } else {
        put_last(model.root(), from, values)
    }
}

// Opens the path to the first leaf.
fn put_first(
    top: &Tree<ParticleLabel>,
    to: Path<'_>,
    values: &mut ValueBuilder,
) -> Result<(), Memory>
    requires few { node_count top.now < 2 ^ 31 }
    requires no_all { IsNoAll (seen top.now) }
    requires leads { (a : Name) × (spots.enter (seen top.now) a ≡ Some (spot_of to.turns.now to.kids.now)) }
    ensures { OnOk result (Puts (top_entered (seen top.now) (spot_of to.entry.turns.now to.entry.kids.now)) values.old values.new) }
{
    if values.keeps_nothing() {
        return Ok(());
    }
    if is_parted(top.label()) {
        return enter_parts(top.kids(), to, values);
    }
    values.part(true)?;
    enter(top, false, to, values)
}

// Moves from a leaf to the next.
#[inline(always)]
fn put_next(
    top: &Tree<ParticleLabel>,
    from: Path<'_>,
    to: Path<'_>,
    values: &mut ValueBuilder,
) -> Result<(), Memory>
    requires few { node_count top.now < 2 ^ 31 }
    requires no_all { IsNoAll (seen top.now) }
    requires leads { (a : Name) × (spots.next (seen top.now) (spot_of from.turns.now from.kids.now) a ≡ Some (spot_of to.turns.now to.kids.now)) }
    ensures { OnOk result (Puts (top_moved (seen top.now) (spot_of from.entry.turns.now from.entry.kids.now) (spot_of to.entry.turns.now to.entry.kids.now)) values.old values.new) }
{
    if values.keeps_nothing() {
        return Ok(());
    }
    if is_parted(top.label()) {
        step_parts(top.kids(), from, to, values)
    } else {
        step(top, from, to, values)
    }
}

// Closes what is open after the last leaf.
fn put_last(
    top: &Tree<ParticleLabel>,
    from: Path<'_>,
    values: &mut ValueBuilder,
) -> Result<(), Memory>
    requires few { node_count top.now < 2 ^ 31 }
    requires no_all { IsNoAll (seen top.now) }
    requires done { finishes (seen top.now) (spot_of from.turns.now from.kids.now) ≡ true }
    ensures { OnOk result (Puts (top_ended (seen top.now) (spot_of from.entry.turns.now from.entry.kids.now)) values.old values.new) }
{
    if values.keeps_nothing() {
        return Ok(());
    }
    if is_parted(top.label()) {
        end_parts(top.kids(), from, values)
    } else {
        end(top, false, from, values)
    }
}

// Appends the parts if there is no leaf.
fn put_none(top: &Tree<ParticleLabel>, values: &mut ValueBuilder) -> Result<(), Memory>
    requires few { node_count top.now < 2 ^ 31 }
    requires no_all { IsNoAll (seen top.now) }
    requires empty { empties (seen top.now) ≡ true }
    ensures { OnOk result (Puts (top_emptied (seen top.now)) values.old values.new) }
{
    if values.keeps_nothing() {
        return Ok(());
    }
    if is_parted(top.label()) {
        put_empty_parts(top.kids(), values)
    } else {
        put_empty_part(top, values)
    }
}
