//! The nodes of a value.
ghost use Rattle.std.specs.Prelude.{◌≡◌, [], ◌<◌, ◌≤◌, ◌+◌, IfOk, OnOk, length, false, drop, None};
ghost use Rattle.base_trees.specs.Rose.{label_of, kids_of};
ghost use Rattle.base_flat_trees.specs.Zips.{added};
ghost use Rattle.asn_types.specs.declared.types.Form.TheVariants as form;
ghost use Rattle.asn_types.specs.Parts.{parts_of};
ghost use Rattle.per_fields.specs.Nodes.{is_no_text};
ghost use Rattle.base_codecs.specs.Reading.{ended_at};
ghost use Rattle.base_codecs.specs.Sequences.{items_at, parts_at};
ghost use Rattle.der_fields.specs.FieldsReading.{stop_at};
ghost use Rattle.der_fields.specs.Reading.{starts, is_optional, unexpected, parts_from, never, sequence_at, choice_at, sequence_of_at, node_read};
ghost use Rattle.der_decode.specs.Private.Bodies as bodies;
ghost use Rattle.der_decode.specs.Private.Newest.{newest};
ghost use Rattle.der_decode.specs.Private.Places.{IsPlace, IsAfter, IsFrom, Adds, Gives};
ghost use Rattle.der_decode.specs.Private.Showing.{Shows, ShowsParts};

use crate::faults::DerEnd;
use crate::heads::{enter, head, unexpected};
use crate::identifiers::{begins_so, is_open};
use crate::leaves::leaf;
use crate::places::{Input, Part, Place};
use crate::rules::{has_no_rules, leaf_keeps, owned, unless_standard};
use asn_types::{Component, Form, resolve};
use asn_values::below;
use base_codecs::Spot;
use base_flat_trees::Builder;
use der_fields::{Stop, Why};
use simple_types::{Flags, Standard, ValueLabel, is_at_most};

/// What a SEQUENCE OF states: its component, and the least and the greatest number of its items.
#[derive(Clone, Copy)]
struct ListForm<'m> {
    part: &'m Component,
    min: u32,
    max: Option<u32>,
}

/// Reads a node, and appends it.
#[cycle(nodes)]
pub(crate) fn node(
    input: Input<'_>,
    place: &Place<'_>,
    values: &mut Builder<ValueLabel>,
) -> Result<Spot, DerEnd>
    requires place { IsPlace 65 place.now }
    requires inside { input.spot.at ≤ length input.octets.now }
    ensures on { IfOk result (IsAfter input.entry) }
    ensures pushed { OnOk result (values.new ≡ added (newest values.new.kids) values.old) }
    ensures gives { Gives input.entry result values.new (node_read place.now.module.now place.now.depth place.now.tag place.now.node.now) }
{
    if place.found.label().form.is_leaf() {
        return leaf_node(input, place, values);
    }
    if has_no_rules(place.module, place.found) {
        return headed(input, place, values);
    }
    ruled(input, place, values)
}

// Reads a node with child nodes whose values may break its rule.
#[cycle(nodes)]
fn ruled(
    input: Input<'_>,
    place: &Place<'_>,
    values: &mut Builder<ValueLabel>,
) -> Result<Spot, DerEnd>
    requires place { IsPlace 65 place.now }
    requires form { bodies.HasKids (label_of place.now.found.now).form }
    requires inside { input.spot.at ≤ length input.octets.now }
    ensures on { IfOk result (IsAfter input.entry) }
    ensures pushed { OnOk result (values.new ≡ added (newest values.new.kids) values.old) }
    ensures gives { Gives input.entry result values.new (node_read place.now.module.now place.now.depth place.now.tag place.now.node.now) }
{
    let mut read = Builder::new(place.alloc);
    let behind = headed(input, place, &mut read)?;
    owned(place, read.finish_one(), input.spot.at, values)?;
    Ok(behind)
}

// Reads a node without child nodes.
fn leaf_node(
    input: Input<'_>,
    place: &Place<'_>,
    values: &mut Builder<ValueLabel>,
) -> Result<Spot, DerEnd>
    requires place { IsPlace 65 place.now }
    requires form { bodies.HasNoKids (label_of place.now.found.now).form }
    requires inside { input.spot.at ≤ length input.octets.now }
    ensures on { IfOk result (IsAfter input.entry) }
    ensures pushed { OnOk result (values.new ≡ added (newest values.new.kids) values.old) }
    ensures gives { Gives input.entry result values.new (node_read place.now.module.now place.now.depth place.now.tag place.now.node.now) }
{
    let Input { octets, spot } = input;
    let form = &place.found.label().form;
    let window = head(octets, spot, place.depth, place.tag, form)?;
    let nodes = spot.nodes + 1;
    let inner = Spot {
        at: window.at,
        nodes,
    };
    let value = leaf(
        place.alloc,
        form,
        &octets[..window.end as usize],
        spot.at,
        inner,
    )?;
    if !leaf_keeps(place.module, place.found, &value) {
        return Err(DerEnd::Stopped(Stop {
            at: spot.at,
            why: Why::NotAValue,
        }));
    }
    values.leaf(value)?;
    Ok(Spot {
        at: window.end,
        nodes,
    })
}

// Reads a node with children, without its rule.
#[cycle(nodes)]
fn headed(
    input: Input<'_>,
    place: &Place<'_>,
    values: &mut Builder<ValueLabel>,
) -> Result<Spot, DerEnd>
    requires place { IsPlace 65 place.now }
    requires form { bodies.HasKids (label_of place.now.found.now).form }
    requires inside { input.spot.at ≤ length input.octets.now }
    ensures adds { Adds (IsAfter input.entry) result values.old values.new }
    ensures gives { Gives input.entry result values.new (bodies.headed_read place.now.module.now place.now.depth place.now.tag place.now.found.now) }
{
    let Input { octets, spot } = input;
    let form = &place.found.label().form;
    if is_open(place.tag, form) {
        return open_choice(input, place, values);
    }
    let window = head(octets, spot, place.depth, place.tag, form)?;
    let inner = Input {
        octets: &octets[..window.end as usize],
        spot: Spot {
            at: window.at,
            nodes: spot.nodes + 1,
        },
    };
    contents(inner, spot.at, place, values)
}

// Reads the contents of a node that begins at an octet.
#[cycle(nodes)]
fn contents(
    input: Input<'_>,
    begin: u64,
    place: &Place<'_>,
    values: &mut Builder<ValueLabel>,
) -> Result<Spot, DerEnd>
    requires place { IsPlace 64 place.now }
    requires form { bodies.HasKids (label_of place.now.found.now).form }
    requires inside { input.spot.at ≤ length input.octets.now }
    ensures adds { Adds (IsFrom input.entry) result values.old values.new }
    ensures gives { Gives input.entry result values.new (bodies.contents_read place.now.module.now place.now.depth begin place.now.found.now) }
{
    match &place.found.label().form {
        Form::Sequence { parts } => sequence(input, place, parts.items(), values),
        Form::Choice { parts } => choice(input, place, parts.items(), values),
        Form::SequenceOf { part, min, max } => {
            let list = ListForm {
                part,
                min: *min,
                max: *max,
            };
            sequence_of(input, begin, place, list, values)
        }
        _ => unreachable!(),
    }
}

// Reads the contents of a SEQUENCE of these components.
#[cycle(nodes)]
fn sequence(
    input: Input<'_>,
    place: &Place<'_>,
    parts: &[Component],
    values: &mut Builder<ValueLabel>,
) -> Result<Spot, DerEnd>
    requires place { IsPlace 64 place.now }
    requires form { (label_of place.now.found.now).form ≡ form.Sequence parts.now }
    requires inside { input.spot.at ≤ length input.octets.now }
    ensures adds { Adds (IsFrom input.entry) result values.old values.new }
    ensures gives { Gives input.entry result values.new (sequence_at place.now.module.now (bodies.kid_at place.now.module.now place.now.depth) (label_of place.now.found.now) (kids_of place.now.found.now) parts.now) }
{
    let mut present = Flags::none();
    // The components state their flags. They are set in the label once the components are read.
    values.open(ValueLabel::Sequence {
        present: Flags::none(),
    })?;
    let behind = components(input, place, parts, &mut present, values)?;
    let _none = values.relabel(ValueLabel::Sequence { present });
    values.close();
    Ok(behind)
}

// Reads the components of a SEQUENCE into a node without children, and states which of them are present.
#[cycle(nodes)]
fn components(
    input: Input<'_>,
    place: &Place<'_>,
    parts: &[Component],
    present: &mut Flags,
    values: &mut Builder<ValueLabel>,
) -> Result<Spot, DerEnd>
    requires place { IsPlace 64 place.now }
    requires form { (label_of place.now.found.now).form ≡ form.Sequence parts.now }
    requires none { present.old ≡ [] }
    requires empty { values.old.kids ≡ [] }
    requires inside { input.spot.at ≤ length input.octets.now }
    ensures on { IfOk result (IsFrom input.entry) }
    ensures above { OnOk result (values.new.above ≡ values.old.above) }
    ensures gives { ShowsParts result present.new values.new.kids (parts_at (starts place.now.module.now) is_optional unexpected (bodies.kid_at place.now.module.now place.now.depth) (parts_from (label_of place.now.found.now) 0 parts.now (kids_of place.now.found.now)) input.entry.octets.now input.entry.spot) }
{
    let octets = input.octets;
    let mut reached = input.spot;
    'parts: for i in 0..parts.len() {
        let kid = place.found.kid(i);
        let to = resolve(place.module, kid);
        let part = &parts[i];
        let tag = Some(i as u32);
        if !begins_so(octets, reached.at, tag, &to.label().form) {
            if !part.optional {
                return Err(DerEnd::Stopped(unexpected(octets, reached)));
            }
            present.push(place.alloc, false)?;
            continue;
        }
        let inner = below(place.found.label().role_of(i, part), place.depth);
        let there = Place {
            alloc: place.alloc,
            module: place.module,
            depth: inner,
            tag,
            node: kid,
            found: to,
        };
        let ahead = Input {
            octets,
            spot: reached,
        };
        let part = Part {
            component: part,
            place: there,
        };
        reached = component(ahead, &part, values)?;
        present.push(place.alloc, true)?;
    }
    if reached.at < octets.len() as u64 {
        return Err(DerEnd::Stopped(unexpected(octets, reached)));
    }
    Ok(reached)
}

// Reads a component, and appends it: a node, and then its default or fixed value.
#[cycle(nodes)]
fn component(
    input: Input<'_>,
    part: &Part<'_>,
    values: &mut Builder<ValueLabel>,
) -> Result<Spot, DerEnd>
    requires place { IsPlace 65 part.now.place }
    requires inside { input.spot.at ≤ length input.octets.now }
    ensures on { IfOk result (IsAfter input.entry) }
    ensures pushed { OnOk result (values.new ≡ added (newest values.new.kids) values.old) }
    ensures gives { Gives input.entry result values.new (bodies.part_read part.now.place.module.now part.now.place.depth part.now.place.tag part.now.component.now part.now.place.node.now) }
{
    match &part.component.standard {
        Standard::Free => node(input, &part.place, values),
        Standard::Default(_) | Standard::Fixed(_) => standard(input, part, values),
    }
}

// Reads a component that has a default or fixed value, which is rare.
#[cycle(nodes)]
fn standard(
    input: Input<'_>,
    part: &Part<'_>,
    values: &mut Builder<ValueLabel>,
) -> Result<Spot, DerEnd>
    requires place { IsPlace 65 part.now.place }
    requires inside { input.spot.at ≤ length input.octets.now }
    ensures on { IfOk result (IsAfter input.entry) }
    ensures pushed { OnOk result (values.new ≡ added (newest values.new.kids) values.old) }
    ensures gives { Gives input.entry result values.new (bodies.part_read part.now.place.module.now part.now.place.depth part.now.place.tag part.now.component.now part.now.place.node.now) }
{
    let mut read = Builder::new(part.place.alloc);
    let behind = node(input, &part.place, &mut read)?;
    unless_standard(part, read.finish_one(), input.spot.at, values)?;
    Ok(behind)
}

// Returns the number of the first component whose identifier is here.
fn first_start(input: Input<'_>, place: &Place<'_>, parts: &[Component]) -> Option<u32>
    requires place { IsPlace 65 place.now }
    requires form { (label_of place.now.found.now).form ≡ form.Choice parts.now }
    requires inside { input.spot.at ≤ length input.octets.now }
    ensures { result ≡ bodies.first_start place.now.module.now (label_of place.now.found.now) parts.now (kids_of place.now.found.now) (drop input.entry.spot.at input.entry.octets.now) }
{
    'parts: for i in 0..parts.len() {
        let to = resolve(place.module, place.found.kid(i));
        if begins_so(
            input.octets,
            input.spot.at,
            Some(i as u32),
            &to.label().form,
        ) {
            return Some(i as u32);
        }
    }
    None
}

// Reads a CHOICE without a tag.
#[cycle(nodes)]
fn open_choice(
    input: Input<'_>,
    place: &Place<'_>,
    values: &mut Builder<ValueLabel>,
) -> Result<Spot, DerEnd>
    requires place { IsPlace 65 place.now }
    requires form { bodies.IsChoice (label_of place.now.found.now).form }
    requires inside { input.spot.at ≤ length input.octets.now }
    ensures adds { Adds (IsAfter input.entry) result values.old values.new }
    ensures gives { Gives input.entry result values.new (choice_at place.now.module.now (bodies.entered_kid place.now.module.now place.now.depth) (label_of place.now.found.now) (kids_of place.now.found.now) (parts_of (label_of place.now.found.now).form)) }
{
    match &place.found.label().form {
        Form::Choice { parts } => entered_choice(input, place, parts.items(), values),
        _ => unreachable!(),
    }
}

// Reads a node of a CHOICE of these alternatives. It is entered before its alternative.
#[cycle(nodes)]
fn entered_choice(
    input: Input<'_>,
    place: &Place<'_>,
    parts: &[Component],
    values: &mut Builder<ValueLabel>,
) -> Result<Spot, DerEnd>
    requires place { IsPlace 65 place.now }
    requires form { (label_of place.now.found.now).form ≡ form.Choice parts.now }
    requires inside { input.spot.at ≤ length input.octets.now }
    ensures adds { Adds (IsAfter input.entry) result values.old values.new }
    ensures gives { Gives input.entry result values.new (choice_at place.now.module.now (bodies.entered_kid place.now.module.now place.now.depth) (label_of place.now.found.now) (kids_of place.now.found.now) parts.now) }
{
    let Input { octets, spot } = input;
    match first_start(input, place, parts) {
        None => Err(DerEnd::Stopped(unexpected(octets, spot))),
        Some(i) => {
            enter(place.depth, spot)?;
            let inner = Input {
                octets,
                spot: Spot {
                    at: spot.at,
                    nodes: spot.nodes + 1,
                },
            };
            alternative(inner, place, parts, i, values)
        }
    }
}

// Reads the contents of a CHOICE that has a tag.
#[cycle(nodes)]
fn choice(
    input: Input<'_>,
    place: &Place<'_>,
    parts: &[Component],
    values: &mut Builder<ValueLabel>,
) -> Result<Spot, DerEnd>
    requires place { IsPlace 64 place.now }
    requires form { (label_of place.now.found.now).form ≡ form.Choice parts.now }
    requires inside { input.spot.at ≤ length input.octets.now }
    ensures adds { Adds (IsFrom input.entry) result values.old values.new }
    ensures gives { Gives input.entry result values.new (ended_at (λ r. stop_at r.at Why.Tag) (choice_at place.now.module.now (bodies.kid_at place.now.module.now place.now.depth) (label_of place.now.found.now) (kids_of place.now.found.now) parts.now)) }
{
    let octets = input.octets;
    match first_start(input, place, parts) {
        None => Err(DerEnd::Stopped(unexpected(octets, input.spot))),
        Some(i) => {
            let behind = alternative(input, place, parts, i, values)?;
            if behind.at < octets.len() as u64 {
                return Err(DerEnd::Stopped(Stop {
                    at: behind.at,
                    why: Why::Tag,
                }));
            }
            Ok(behind)
        }
    }
}

// Reads the alternative with this number.
#[cycle(nodes)]
fn alternative(
    input: Input<'_>,
    place: &Place<'_>,
    parts: &[Component],
    index: u32,
    values: &mut Builder<ValueLabel>,
) -> Result<Spot, DerEnd>
    requires place { IsPlace 64 place.now }
    requires form { (label_of place.now.found.now).form ≡ form.Choice parts.now }
    requires index { index < length parts.now }
    requires inside { input.spot.at ≤ length input.octets.now }
    ensures adds { Adds (IsAfter input.entry) result values.old values.new }
    ensures gives { Gives input.entry result values.new (bodies.alternative_read place.now.module.now place.now.depth index (bodies.alternative_place place.now.found.now parts.now index)) }
{
    let i = index as usize;
    let kid = place.found.kid(i);
    let to = resolve(place.module, kid);
    let part = &parts[i];
    let inner = below(place.found.label().role_of(i, part), place.depth);
    let there = Place {
        alloc: place.alloc,
        module: place.module,
        depth: inner,
        tag: Some(index),
        node: kid,
        found: to,
    };
    values.open(ValueLabel::Choice(index))?;
    let part = Part {
        component: part,
        place: there,
    };
    let behind = component(input, &part, values)?;
    values.close();
    Ok(behind)
}

// Reads the contents of a SEQUENCE OF that begins at an octet.
#[cycle(nodes)]
fn sequence_of(
    input: Input<'_>,
    begin: u64,
    place: &Place<'_>,
    list: ListForm<'_>,
    values: &mut Builder<ValueLabel>,
) -> Result<Spot, DerEnd>
    requires place { IsPlace 64 place.now }
    requires form { (label_of place.now.found.now).form ≡ form.SequenceOf list.part.now list.min list.max }
    requires inside { input.spot.at ≤ length input.octets.now }
    ensures adds { Adds (IsFrom input.entry) result values.old values.new }
    ensures gives { Gives input.entry result values.new (sequence_of_at (bodies.kid_at place.now.module.now place.now.depth) begin list.entry.min list.entry.max (bodies.item_place place.now.found.now list.entry.part.now)) }
{
    let item = place.found.kid(0);
    let to = resolve(place.module, item);
    let inner = below(place.found.label().role_of(0, list.part), place.depth);
    let there = Place {
        alloc: place.alloc,
        module: place.module,
        depth: inner,
        tag: None,
        node: item,
        found: to,
    };
    values.open(ValueLabel::SequenceOf)?;
    let part = Part {
        component: list.part,
        place: there,
    };
    let read = items(input, &part, values)?;
    if read.1 < list.min as usize {
        return Err(DerEnd::Stopped(Stop {
            at: begin,
            why: Why::Range,
        }));
    }
    if !is_at_most(read.1, list.max) {
        return Err(DerEnd::Stopped(Stop {
            at: begin,
            why: Why::Range,
        }));
    }
    values.close();
    Ok(read.0)
}

// Reads the items of a SEQUENCE OF into a node without children, and counts them.
#[cycle(nodes)]
fn items(
    input: Input<'_>,
    part: &Part<'_>,
    values: &mut Builder<ValueLabel>,
) -> Result<(Spot, usize), DerEnd>
    requires place { IsPlace 65 part.now.place }
    requires empty { values.old.kids ≡ [] }
    requires inside { input.spot.at ≤ length input.octets.now }
    ensures on { IfOk result (λ read. IsFrom input.entry read.0) }
    ensures above { OnOk result (values.new.above ≡ values.old.above) }
    ensures count { IfOk result (λ read. read.1 ≡ length values.new.kids) }
    ensures gives { Shows (λ read. (values.new.kids, read.0)) result (items_at never (bodies.part_read part.now.place.module.now part.now.place.depth part.now.place.tag part.now.component.now part.now.place.node.now) input.entry.octets.now input.entry.spot) }
{
    let octets = input.octets;
    let mut reached = input.spot;
    let mut count: usize = 0;
    'items: while reached.at < octets.len() as u64 {
        let ahead = Input {
            octets,
            spot: reached,
        };
        reached = component(ahead, part, values)?;
        count += 1;
    }
    Ok((reached, count))
}
