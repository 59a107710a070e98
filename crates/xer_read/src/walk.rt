//! What the functions that traverse a document pass to each other.
use base_texts::{Name, Steps, Text};
use content_match::Plan;
use content_models::Particle;
use schema_components::SchemaSet;
use std::sync::ledger::Ledger;
use validity_check::{Declared, Plans};
use xml_items::ItemKids;

/// What a traversal changes besides the values: the plans of the set's content models, and the count of steps through them.
#[derive(Drop)]
pub(crate) struct Walk<'s, 'c, L: Ledger> {
    pub plans: Plans<'s>,
    pub steps: &'c mut Steps<L>,
}

/// The children of an element, and the place of the element.
#[derive(Drop)]
pub(crate) struct Parent<'a> {
    pub at: u64,
    pub kids: ItemKids<'a>,
}

/// An element: its declaration in a set, its attributes and its children.
#[derive(Drop)]
pub(crate) struct Element<'a> {
    pub set: &'a SchemaSet,
    pub declared: Declared<'a>,
    pub attributes: &'a [(Name, Text)],
    pub parent: Parent<'a>,
}

/// The content model of child elements: one of a set, with its plan, and whether texts may come between them.
#[derive(Clone, Copy)]
pub(crate) struct ChildModel<'a> {
    pub set: &'a SchemaSet,
    pub mixed: bool,
    pub model: &'a Particle,
    pub plan: &'a Plan,
}
