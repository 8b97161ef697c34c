//! Rings of snapshots.
ghost use Rattle.std.specs.Prelude.{◌≡◌, ◌<◌, ◌∷◌, [], IfErr, IfOk, length};
ghost use Rattle.ring_founding.specs.Founding.{AreFounded, AreUnfounded, IsFounded, IsNextNumber};
ghost use Rattle.ring_founding.specs.Founding.{IsUnfounded};
ghost use Rattle.ring_founding.specs.declared.founding.FoundFault.TheVariants.{NoMemory};

use ring_model::{BuildFault, Ring, RingParts, Rings};
use ring_text::Snapshot;
use ring_words::{Device, Hour, MOST_RINGS, partition_count};
use std::alloc::{AllocError, Global};

/// How rings come in.
#[derive(Clone, Copy)]
pub struct Terms {
    /// For how many hours a partition that was moved stays where it is.
    pub min_hours: u16,
    /// The hour at which each partition counts as moved.
    pub hour: Hour,
}

/// Why rings don't come in.
#[derive(Clone, Copy, Debug, PartialEq, Eq)]
pub enum FoundFault {
    /// There is a ring of the name.
    RingExists,
    /// There are as many rings as there may be.
    TooManyRings,
    /// A growth of memory was refused.
    NoMemory,
}

impl From<AllocError> for FoundFault {
    ghost from_gives = { λ _ why. why ≡ NoMemory };

    fn from(_refused: AllocError) -> FoundFault {
        FoundFault::NoMemory
    }
}

/// The number beyond the greatest of devices.
fn next_number(devices: &[Device]) -> u32
    requires { 0 < length devices.now }
    ensures { IsNextNumber devices.now result }
{
    let mut next = 0;
    for device in devices {
        next = u32::max(next, u32::from(device.id) + 1);
    }
    next
}

/// The ring of a snapshot as it stands.
pub fn found_ring(alloc: Global, terms: Terms, snapshot: &Snapshot) -> Result<Ring, AllocError>
    ensures { IfOk result (IsFounded terms snapshot.now) }
{
    let devices = snapshot.devices();
    let parts = RingParts {
        power: snapshot.power(),
        replicas: snapshot.replicas(),
        min_hours: terms.min_hours,
        next_id: next_number(devices),
        version: snapshot.version(),
        devices: devices.to_vec(alloc)?,
        seats: Vec::from_slice(alloc, snapshot.seats())?,
        moved: vec![in alloc; Some(terms.hour); partition_count(snapshot.power())]?,
        published: Vec::new(alloc),
    };
    match Ring::build(alloc, parts) {
        Ok(ring) => Ok(ring),
        Err(BuildFault::NoMemory) => Err(AllocError),
        Err(BuildFault::Invalid) => unreachable!(),
    }
}

/// These rings, and beside them that of a snapshot under its name.
fn with_founded(
    alloc: Global,
    terms: Terms,
    rings: &Rings,
    snapshot: &Snapshot,
) -> Result<Rings, FoundFault>
    ensures founded { IfOk result (AreFounded terms rings.now (snapshot.now ∷ [])) }
    ensures unfounded { IfErr result (IsUnfounded rings.now snapshot.now) }
{
    if rings.get(snapshot.name()).is_some() {
        return Err(FoundFault::RingExists);
    }
    if rings.list().len() >= MOST_RINGS {
        return Err(FoundFault::TooManyRings);
    }
    let ring = found_ring(alloc, terms, snapshot)?;
    Ok(rings.with(snapshot.name().clone()?, ring)?)
}

/// These rings, and beside them those of snapshots as they stand, under their names. RingExists
/// exactly where a name is taken, and TooManyRings where there is no room for one more; the first
/// snapshot of which one of the two can be said decides.
pub fn found_rings(
    alloc: Global,
    terms: Terms,
    rings: Rings,
    snapshots: &[Snapshot],
) -> Result<Rings, FoundFault>
    ensures founded { IfOk result (AreFounded terms rings snapshots.now) }
    ensures unfounded { IfErr result (AreUnfounded terms rings snapshots.now) }
{
    let mut founded = rings;
    for snapshot in snapshots {
        founded = with_founded(alloc, terms, &founded, snapshot)?;
    }
    Ok(founded)
}
