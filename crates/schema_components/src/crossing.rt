//! A set may be lent to any threads at once.
use crate::schema_sets::SchemaSet;
use std::marker::{Send, Sync};

// Takes what may cross threads, and may be lent to several at once.
fn crosses<T: Send + Sync>(_it: &T) {}

/// A set may be lent to any threads at once. Where a part of it isn't so the crate isn't compiled.
pub fn set_crosses(set: &SchemaSet) {
    crosses(set);
}
