//! What is known of every value of rings.
ghost use Rattle.store_rows.specs.Stands.{AreRings, IsNamedRing};

use ring_model::{Ring, Rings};
use ring_words::RingName;

/// A ring has a name and is valid.
fn ring_is_proper(name: &RingName, ring: &Ring)
    ensures { IsNamedRing (name.now, ring.now) }
{
    let _name = name.as_str();
    let _power = ring.power();
}

/// Rings are at most 16, by name, and each is valid under a name.
pub(crate) fn rings_are_proper(rings: &Rings)
    ensures { AreRings rings.now }
{
    for entry in rings.list() {
        ring_is_proper(&entry.0, entry.1.as_ref());
    }
}
