//! Rings by their names.
ghost use Rattle.std.specs.Prelude.{◌≡◌, ◌<◌, ◌≤◌, ◌++◌, ◌∷◌, [], if◌then◌else◌, IfOk, OnOk, false};
ghost use Rattle.std.specs.Prelude.{filter, find, is_some, length, nat_eq};
ghost use Rattle.std.specs.Cmp.Lexicographic.{pointwise};
ghost use Rattle.std.specs.Option.{option_copied, option_map};
ghost use Rattle.ring_words.specs.Limits.{most_rings};
ghost use Rattle.ring_model.specs.Rings.{AreByName, is_before, ring_at, seen, with_ring};

use crate::ring::Ring;
use ring_words::RingName;
use std::alloc::{AllocError, Global};
use std::marker::Model;
use std::rc::Rc;

/// As many rings as are kept at most, or fewer, each under a name of its own. Contracts see the list
/// of names and rings by rising name.
///
/// No call changes a value: what makes a new one leaves the old as it was, and shares the rings
/// that stay.
#[derive(Drop)]
pub struct Rings {
    rings: Vec<(RingName, Rc<Ring>)>,
}

impl Model for Rings {
    ghost use Rattle.std.specs.Prelude.{◌≤◌, ℕ, List, length};
    ghost use Rattle.ring_words.specs.Limits.{most_rings};
    ghost use Rattle.ring_model.specs.Ring.{RingRecord};
    ghost use Rattle.ring_model.specs.Rings.{AreByName, seen};

    ghost Value = { List (List ℕ × RingRecord) };

    ghost view = { λ r. seen r.rings.items };

    ghost invariant = { λ r. (length r.rings.items ≤ most_rings) × AreByName (seen r.rings.items) };
}

/// Whether a name comes before another, byte by byte.
fn is_before(name: &RingName, other: &RingName) -> bool
    ensures { result ≡ is_before name.now other.now }
{
    name.as_str() < other.as_str()
}

/// The ring of a name.
fn find_ring<'a>(
    rings: &'a [(RingName, Rc<Ring>)],
    name: &RingName,
) -> Option<&'a (RingName, Rc<Ring>)>
    ensures { option_copied result ≡ find (λ e. pointwise nat_eq e.0 name.now) rings.now }
{
    rings.iter().find(|entry| entry.0 == *name)
}

/// One more share of a ring under its name.
fn shared(entry: &(RingName, Rc<Ring>)) -> Result<(RingName, Rc<Ring>), AllocError>
    ensures name { IfOk result (λ copy. copy.0 ≡ entry.now.0) }
    ensures ring { IfOk result (λ copy. copy.1.value ≡ entry.now.1.value) }
{
    Ok((entry.0.clone()?, entry.1.clone()?))
}

/// Adds a share of a ring if it is to be kept.
fn push_if(
    into: &mut Vec<(RingName, Rc<Ring>)>,
    entry: &(RingName, Rc<Ring>),
    is_kept: bool,
) -> Result<(), AllocError>
    ensures { OnOk result (seen into.new.items ≡ seen into.old.items ++
        (if is_kept then (entry.now.0, entry.now.1.value) ∷ [] else [])) }
{
    if is_kept {
        into.push(shared(entry)?)?;
    }
    Ok(())
}

/// Adds a share of each ring whose name comes before another name.
fn push_before(
    into: &mut Vec<(RingName, Rc<Ring>)>,
    rings: &[(RingName, Rc<Ring>)],
    name: &RingName,
) -> Result<(), AllocError>
    ensures { OnOk result (seen into.new.items ≡ seen into.old.items ++
        filter (λ e. is_before e.0 name.now) (seen rings.now)) }
{
    for entry in rings {
        push_if(into, entry, is_before(&entry.0, name))?;
    }
    Ok(())
}

/// Adds a share of each ring whose name comes after another name.
fn push_after(
    into: &mut Vec<(RingName, Rc<Ring>)>,
    rings: &[(RingName, Rc<Ring>)],
    name: &RingName,
) -> Result<(), AllocError>
    ensures { OnOk result (seen into.new.items ≡ seen into.old.items ++
        filter (λ e. is_before name.now e.0) (seen rings.now)) }
{
    for entry in rings {
        push_if(into, entry, is_before(name, &entry.0))?;
    }
    Ok(())
}

impl Clone for Rings {
    ghost is_clone = { λ rings copy. copy ≡ rings };

    fn clone(&self) -> Result<Rings, AllocError> {
        let rings = self.rings.clone()?;
        Ok(Rings { rings })
    }
}

impl Rings {
    /// No rings.
    pub fn new(alloc: Global) -> Rings
        ensures { result ≡ [] }
    {
        Rings {
            rings: Vec::new(alloc),
        }
    }

    /// The ring of a name.
    pub fn get(&self, name: &RingName) -> Option<&Ring>
        ensures { option_map (λ ring. ring.now) result ≡ ring_at name.now self.now }
    {
        let entry = find_ring(&self.rings, name)?;
        Some(entry.1.as_ref())
    }

    /// All rings, by rising name.
    pub fn list(&self) -> &[(RingName, Rc<Ring>)]
        ensures value { seen result.now ≡ self.now }
        ensures count { length self.now ≤ most_rings }
        ensures by_name { AreByName self.now }
    {
        self.rings.as_slice()
    }

    /// The rings with one more, or with another under its name. Asks that there is room for one more
    /// where the name is new.
    pub fn with(&self, name: RingName, ring: Ring) -> Result<Rings, AllocError>
        requires { is_some (ring_at name self.now) ≡ false → length self.now < most_rings }
        ensures { IfOk result (λ rings. rings ≡ with_ring self.now name ring) }
    {
        let alloc = *self.rings.allocator();
        let mut rings = Vec::new(alloc);
        push_before(&mut rings, &self.rings, &name)?;
        let entry = (name, Rc::new(alloc, ring)?);
        push_if(&mut rings, &entry, true)?;
        push_after(&mut rings, &self.rings, &entry.0)?;
        Ok(Rings { rings })
    }
}
