//! From a path to its partition.
ghost use Rattle.std.specs.Prelude.{◌≡◌, ◌<◌, ◌^◌, ◌++◌, ℕ, List};
ghost use Rattle.std.specs.Option.{option_copied};
ghost use Rattle.md5.specs.Md5.{Holds};
ghost use Rattle.path_lookup.specs.Names.{behind_slash};
ghost use Rattle.path_lookup.specs.Nodes.{partition_of, path_hash};

use crate::path::Path;
use md5::{Digest, Md5};
use ring_words::Power;

/// What stands before and after each path that is hashed: a cluster's own bytes, or none.
#[derive(Clone, Copy, Debug)]
pub struct HashNames<'a> {
    pub prefix: &'a [u8],
    pub suffix: &'a [u8],
}

/// Adds a `/` and a name to what is hashed, if there is a name.
fn add_name(hasher: &mut Md5, name: Option<&[u8]>)
    ensures { (m : List ℕ) → Holds hasher.old m →
        Holds hasher.new (m ++ behind_slash (option_copied name.entry)) }
{
    if let Some(name) = name {
        hasher.update(b"/");
        hasher.update(name);
    }
}

/// The hash of a path: the MD5 digest (RFC 1321) of the prefix, of each of the path's names behind
/// a `/`, and of the suffix.
pub fn hash_path(names: HashNames<'_>, path: &Path) -> [u8; 16]
    ensures { result ≡ path_hash names.entry.prefix.now path.now names.entry.suffix.now }
{
    let mut hasher = Md5::new();
    hasher.update(names.prefix);
    add_name(&mut hasher, Some(path.account()));
    add_name(&mut hasher, path.container());
    add_name(&mut hasher, path.object());
    hasher.update(names.suffix);
    hasher.finalize()
}

/// The partition of a hash in a ring of this power: its first four bytes as one number, the first
/// byte the greatest part, shifted right until as many bits are left as the power says.
pub fn partition_of(hash: [u8; 16], power: Power) -> u32
    ensures value { result ≡ partition_of hash power }
    ensures within { result < 2 ^ power }
{
    let [first, second, third, fourth, ..] = hash;
    u32::from_be_bytes([first, second, third, fourth]) >> (32 - power.get())
}
