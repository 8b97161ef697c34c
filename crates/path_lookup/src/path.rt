//! Paths.
ghost use Rattle.std.specs.Prelude.{◌≡◌, IfOk};
ghost use Rattle.std.specs.List.{list_all};
ghost use Rattle.std.specs.Option.{option_copied, option_map};
ghost use Rattle.path_lookup.specs.Names.{is_inside, is_object, is_segment, is_segment_byte};

use crate::fault::PathFault;
use std::alloc::{AllocError, Global};
use std::marker::Model;

/// The path of an account, of a container in an account, or of an object in a container. An account
/// and a container are named by 1 to 256 bytes without `/`, an object by 1 to 1024 bytes of any
/// kind. Contracts see the names.
#[derive(Drop)]
pub struct Path {
    account: Vec<u8>,
    container: Option<Vec<u8>>,
    object: Option<Vec<u8>>,
}

impl Model for Path {
    ghost use Rattle.std.specs.Prelude.{◌≡◌, true};
    ghost use Rattle.std.specs.Option.{option_map};
    ghost use Rattle.path_lookup.specs.Names.{PathNames, is_path, names_of};

    ghost Value = { PathNames };

    ghost view = { λ p. names_of p.account.items (option_map (λ v. v.items) p.container)
        (option_map (λ v. v.items) p.object) };

    ghost invariant = { λ p. is_path (names_of p.account.items (option_map (λ v. v.items)
        p.container) (option_map (λ v. v.items) p.object)) ≡ true };
}

fn are_segment_bytes(name: &[u8]) -> bool
    ensures { result ≡ list_all is_segment_byte name.now }
{
    name.iter().all(|byte| *byte != b'/')
}

/// Whether bytes are of the form of an account's or a container's name.
fn is_segment(name: &[u8]) -> bool
    ensures { result ≡ is_segment name.now }
{
    !name.is_empty() && name.len() <= 256 && are_segment_bytes(name)
}

/// Whether bytes are of the form of an object's name.
fn is_object(name: &[u8]) -> bool
    ensures { result ≡ is_object name.now }
{
    !name.is_empty() && name.len() <= 1024
}

/// Whether the names behind an account's are of their forms, and no object is without a container.
fn is_inside(container: Option<&[u8]>, object: Option<&[u8]>) -> bool
    ensures { result ≡ is_inside (option_copied container.entry) (option_copied object.entry) }
{
    match (container, object) {
        (None, None) => true,
        (None, Some(_)) => false,
        (Some(container), None) => is_segment(container),
        (Some(container), Some(object)) => is_segment(container) && is_object(object),
    }
}

/// A copy of a name, if there is one.
fn copied(alloc: Global, name: Option<&[u8]>) -> Result<Option<Vec<u8>>, AllocError>
    ensures { IfOk result (λ copy. option_map (λ v. v.items) copy ≡ option_copied name.entry) }
{
    match name {
        None => Ok(None),
        Some(name) => Ok(Some(name.to_vec(alloc)?)),
    }
}

impl Path {
    ghost use Rattle.std.specs.Prelude.{◌≡◌, ◌≢◌, ◌↔◌, IfOk, IsErrOf, true};
    ghost use Rattle.std.specs.Option.{option_copied};
    ghost use Rattle.path_lookup.specs.Names.{is_path, names_of};

    /// The path of these names. BadPath exactly where they aren't of their forms, or where an
    /// object has no container.
    pub fn new(
        alloc: Global,
        account: &[u8],
        container: Option<&[u8]>,
        object: Option<&[u8]>,
    ) -> Result<Path, PathFault>
        ensures path { IfOk result (λ path. path ≡ names_of account.now
            (option_copied container.entry) (option_copied object.entry)) }
        ensures good { IfOk result (λ path. is_path path ≡ true) }
        ensures bad { IsErrOf result PathFault.BadPath ↔
            (is_path (names_of account.now (option_copied container.entry)
            (option_copied object.entry)) ≢ true) }
    {
        if !is_segment(account) || !is_inside(container, object) {
            return Err(PathFault::BadPath);
        }
        Ok(Path {
            account: account.to_vec(alloc)?,
            container: copied(alloc, container)?,
            object: copied(alloc, object)?,
        })
    }

    /// The account's name.
    pub(crate) fn account(&self) -> &[u8]
        ensures { result.now ≡ self.now.account }
    {
        &self.account
    }

    /// The container's name, if the path names one.
    pub(crate) fn container(&self) -> Option<&[u8]>
        ensures { option_copied result ≡ self.now.container }
    {
        self.container.as_deref()
    }

    /// The object's name, if the path names one.
    pub(crate) fn object(&self) -> Option<&[u8]>
        ensures { option_copied result ≡ self.now.object }
    {
        self.object.as_deref()
    }
}
