//! Faults in their order.
ghost use Rattle.std.specs.Prelude.{◌≡◌};
ghost use Rattle.module_text.specs.Listed as listed;

use module_text::{ModuleWhy, TextFault};

/// Returns a fault at this place, for this reason, unless the condition holds.
#[tactic(auto, unfolding(module_text::specs::Listed::first))]
pub fn unless(holds: bool, at: u64, why: ModuleWhy) -> Option<TextFault>
    ensures { result ≡ listed.first (listed.unless holds at why) }
{
    if holds {
        None
    } else {
        Some(TextFault { at, why })
    }
}
