//! A module may be lent to any threads at once.
use crate::modules::Module;
use std::marker::{Send, Sync};

// Takes what may cross threads, and may be lent to several at once.
fn crosses<T: Send + Sync>(_it: &T) {}

/// A module may be lent to any threads at once. Where a part of it isn't so the crate isn't compiled.
pub fn module_crosses(module: &Module) {
    crosses(module);
}
