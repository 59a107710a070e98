//! Defines DER (X.690): identifiers, lengths, contents, the octets of each value, how octets are read, and the first error.
//!
//! Read first: docs/reference/DER.md, `specs/Octets`, `Encoding` (`der`, `distinguished`) and `Reading`, then `src/laws.rt`;
//! `specs/Faults` and `specs/Stopping` (`DerStop`), then `src/stop_laws.rt`.
#![tactic(auto)]

mod forms;
mod laws;
mod stop_laws;
mod stops;

pub use forms::{is_constructed, universal_identifier};
pub use laws::{first_stop, nodes};
pub use stop_laws::stops_first;
pub use stops::{Stop, Why};
