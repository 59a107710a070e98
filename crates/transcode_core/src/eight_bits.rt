//! Octets as numbers below 256.
ghost use Rattle.std.specs.Prelude.{◌<◌, ℕ, All, slice_index};

// Octets are below 256: their type says so, and here it becomes a fact.
fn each_octet(octets: &[u8])
    ensures { (k : ℕ) → slice_index octets.now k < 256 }
{}

/// States that all octets are below 256. Does nothing when it runs.
pub fn see_octets(octets: &[u8])
    ensures { All (λ x. x < 256) octets.now }
{
    each_octet(octets);
}
