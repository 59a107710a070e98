//! Builds the value of a content model as child elements are matched.
//!
//! From one leaf to the next it closes what is complete, writes the parts between as absent, and opens the path to the next
//! leaf.
//!
//! Read first: `specs/Made` (`TopMade`) and `specs/Reached`, then `put_step` in `src/placing.rt`.
#![tactic(auto)]

mod emptying;
mod ending;
mod entering;
mod kinds;
mod moving;
mod paths;
mod placing;

pub use paths::Path;
pub use placing::{put_end, put_step};
