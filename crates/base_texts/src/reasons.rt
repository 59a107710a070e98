//! Defines the row of a reason: its name, its meaning and its remedy.
//!
//! Each enum of reasons has one function, `reason`, with a row for each of its variants. Programs, pages and tables use these
//! words.

/// The row of a reason.
#[derive(Clone, Copy)]
pub struct Reason {
    /// The name, which `bin/transcode` writes and scripts compare.
    pub name: &'static str,
    /// The error, in English.
    pub means: &'static str,
    /// The remedy, in English.
    pub remedy: &'static str,
}
