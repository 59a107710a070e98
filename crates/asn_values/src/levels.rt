//! How deep elements are nested in a value.
ghost use Rattle.std.specs.Prelude.{◌≡◌, ◌≤◌};
ghost use Rattle.asn_values.specs.Values as rule;

use asn_types::Role;

/// Returns the nesting depth of elements at a part with this role. `depth` is that at the node that has the part.
#[inline(always)]
pub fn below(role: Role, depth: u32) -> u32
    requires { depth ≤ 64 }
    ensures same { result ≡ rule.below role depth }
    ensures few { result ≤ 65 }
{
    match role {
        Role::Element => depth + 1,
        _ => depth,
    }
}
