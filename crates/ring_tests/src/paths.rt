//! What no contract says: worked examples, the digests of MD5, and that calls succeed where there
//! is memory. Expected digests are those of Python's hashlib.
mod lookups;

use md5::{Digest, Md5};
use path_lookup::{HashNames, Path, PathFault, hash_path, partition_of};
use ring_words::Power;
use std::alloc::{AllocError, Global};

/// The digests of the first 0 to 130 bytes that count up from 0, one behind another.
fn counting_digests(alloc: Global) -> Result<Vec<u8>, AllocError> {
    let mut digests = Vec::new(alloc);
    let mut text = Vec::new(alloc);
    for byte in 0..131u8 {
        digests.extend_from_slice(&Md5::digest(text.as_slice()))?;
        text.push(byte)?;
    }
    Ok(digests)
}

/// The hashes of a path behind, or before, the same bytes.
fn counting_hashes(alloc: Global, path: &Path, is_behind: bool) -> Result<Vec<u8>, AllocError> {
    let mut hashes = Vec::new(alloc);
    let mut text = Vec::new(alloc);
    for byte in 0..131u8 {
        let (prefix, suffix): (&[u8], &[u8]) = if is_behind {
            (&text, b"")
        } else {
            (b"", &text)
        };
        hashes.extend_from_slice(&hash_path(HashNames { prefix, suffix }, path))?;
        text.push(byte)?;
    }
    Ok(hashes)
}

/// The digest of all digests of 0 to 130 bytes.
const OF_DIGESTS: [u8; 16] = [
    0x94, 0x8a, 0x4e, 0xa6, 0x41, 0x01, 0x79, 0x4d, 0x67, 0x16, 0xd2, 0x3b, 0x55, 0x85, 0xc2, 0xf6,
];

/// The digest of all hashes of `/a/c/o` behind 0 to 130 bytes.
const OF_HASHES_BEHIND: [u8; 16] = [
    0x7b, 0x1d, 0x34, 0x31, 0xe9, 0x58, 0xe5, 0x9d, 0x47, 0x7f, 0x6a, 0xe4, 0x49, 0xc2, 0x49, 0x20,
];

/// The digest of all hashes of `/a/c/o` before 0 to 130 bytes.
const OF_HASHES_BEFORE: [u8; 16] = [
    0x71, 0xde, 0x7b, 0x04, 0x16, 0x54, 0x5b, 0x1e, 0x88, 0xd9, 0xfc, 0x00, 0xc0, 0x4b, 0xf4, 0xc6,
];

fn are_md5_digests(alloc: Global) -> Option<bool> {
    let digests = counting_digests(alloc).ok()?;
    Some(digests.len() == 2096 && Md5::digest(digests.as_slice()) == OF_DIGESTS)
}

#[test]
fn digests_are_those_of_md5(rt: HostRuntime) {
    assert!(rt; matches!(are_md5_digests(rt.alloc()), Some(true)));
}

/// The digest of no bytes.
const OF_NOTHING: [u8; 16] = [
    0xd4, 0x1d, 0x8c, 0xd9, 0x8f, 0x00, 0xb2, 0x04, 0xe9, 0x80, 0x09, 0x98, 0xec, 0xf8, 0x42, 0x7e,
];

/// The digest of the byte `a`.
const OF_A: [u8; 16] = [
    0x0c, 0xc1, 0x75, 0xb9, 0xc0, 0xf1, 0xb6, 0xa8, 0x31, 0xc3, 0x99, 0xe2, 0x69, 0x77, 0x26, 0x61,
];

/// The digest of the bytes `abc`.
const OF_ABC: [u8; 16] = [
    0x90, 0x01, 0x50, 0x98, 0x3c, 0xd2, 0x4f, 0xb0, 0xd6, 0x96, 0x3f, 0x7d, 0x28, 0xe1, 0x7f, 0x72,
];

/// Texts and their digests.
static SHORT_TEXTS: [(&str, [u8; 16]); 3] = [("", OF_NOTHING), ("a", OF_A), ("abc", OF_ABC)];

#[test]
fn short_texts_have_the_digests_of_md5(rt: HostRuntime) {
    for (text, digest) in &SHORT_TEXTS {
        assert!(rt; Md5::digest(text.as_bytes()) == *digest, "{text}");
    }
}

#[test]
fn pieces_have_the_digest_of_the_whole(rt: HostRuntime) {
    let mut pieces = Md5::new();
    for piece in [b"a", b"b", b"c"] {
        pieces.update(piece);
    }
    assert!(rt; pieces.finalize() == OF_ABC);
}

/// The digest of the hashes of `/a/c/o` behind, or before, counting bytes.
fn digest_of_hashes(alloc: Global, is_behind: bool) -> Option<[u8; 16]> {
    let path = Path::new(alloc, b"a", Some(b"c"), Some(b"o")).ok()?;
    let hashes = counting_hashes(alloc, &path, is_behind).ok()?;
    Some(Md5::digest(hashes.as_slice()))
}

#[test]
fn hashes_are_digests_of_prefix_path_and_suffix(rt: HostRuntime) {
    assert!(rt; digest_of_hashes(rt.alloc(), true) == Some(OF_HASHES_BEHIND));
    assert!(rt; digest_of_hashes(rt.alloc(), false) == Some(OF_HASHES_BEFORE));
}

/// The digest of the six bytes `x/a/cy`.
const OF_CONTAINER: [u8; 16] = [
    0x86, 0x15, 0xdb, 0xdd, 0x5e, 0x21, 0x18, 0xdb, 0xd5, 0x5a, 0x20, 0xb7, 0x92, 0xbb, 0xa8, 0x29,
];

/// The digest of the bytes `/a`.
const OF_ACCOUNT: [u8; 16] = [
    0x06, 0x39, 0x76, 0x7f, 0x3e, 0x9e, 0xaa, 0xd7, 0x29, 0xb5, 0x40, 0x37, 0xa7, 0xe2, 0xab, 0xf5,
];

/// The digest of the bytes `x/a/c//oy`.
const OF_OBJECT: [u8; 16] = [
    0x56, 0x13, 0x54, 0xee, 0x2a, 0x12, 0x22, 0x4c, 0x6e, 0x7e, 0xdb, 0x6d, 0x20, 0xd3, 0xca, 0xa9,
];

/// The names of a path.
type Names = (&'static [u8], Option<&'static [u8]>, Option<&'static [u8]>);

/// A prefix, names, a suffix, and the hash of the path between the two.
static HASHES: [(&[u8], Names, &[u8], [u8; 16]); 3] = [
    (b"", (b"a", None, None), b"", OF_ACCOUNT),
    (b"x", (b"a", Some(b"c"), None), b"y", OF_CONTAINER),
    (b"x", (b"a", Some(b"c"), Some(b"/o")), b"y", OF_OBJECT),
];

/// Whether the path of names has this hash between a prefix and a suffix.
fn has_hash(alloc: Global, prefix: &[u8], names: &Names, suffix: &[u8], hash: &[u8; 16]) -> bool {
    match Path::new(alloc, names.0, names.1, names.2) {
        Ok(path) => hash_path(HashNames { prefix, suffix }, &path) == *hash,
        Err(_) => false,
    }
}

#[test]
fn each_name_is_hashed_behind_a_slash(rt: HostRuntime) {
    for (prefix, names, suffix, hash) in &HASHES {
        assert!(rt; has_hash(rt.alloc(), prefix, names, suffix, hash));
    }
}

/// Powers, and the partitions in rings of these powers of the digests of `abc`, of `a` and of the
/// empty text.
static PARTITIONS: [(u16, [u32; 3]); 6] = [
    (1, [1, 0, 1]),
    (4, [9, 0, 13]),
    (8, [144, 12, 212]),
    (10, [576, 51, 848]),
    (11, [1152, 102, 1696]),
    (14, [9216, 816, 13575]),
];

/// Whether the digests of the three texts have these partitions in rings of a power.
fn are_partitions(power: u16, partitions: &[u32; 3]) -> bool {
    let Some(power) = Power::new(power) else {
        return false;
    };
    partition_of(Md5::digest(b"abc"), power) == partitions[0]
        && partition_of(Md5::digest(b"a"), power) == partitions[1]
        && partition_of(Md5::digest(b""), power) == partitions[2]
}

#[test]
fn a_partition_is_the_front_of_a_hash(rt: HostRuntime) {
    for (power, partitions) in &PARTITIONS {
        assert!(rt; are_partitions(*power, partitions), "{power}");
    }
}

/// The longest name of an account or a container, and one that is too long.
const LONGEST: [u8; 256] = [255; 256];

const TOO_LONG: [u8; 257] = [b'a'; 257];

/// The longest name of an object, and one that is too long.
const LONGEST_OBJECT: [u8; 1024] = [b'/'; 1024];

const TOO_LONG_OBJECT: [u8; 1025] = [b'a'; 1025];

/// Names, and whether they make a path.
static LIMITS: [(Names, bool); 11] = [
    // the longest names
    ((&LONGEST, Some(&LONGEST), Some(&LONGEST_OBJECT)), true),
    ((b"\0", Some(b"\n"), Some(b" ")), true), // any bytes
    ((b"", None, None), false), // no account
    ((b"a/b", None, None), false), // a slash in an account
    ((&TOO_LONG, None, None), false), // an account too long
    ((b"a", Some(b""), None), false), // an empty container
    ((b"a", Some(b"c/"), Some(b"o")), false), // a slash in a container
    ((b"a", Some(&TOO_LONG), None), false), // a container too long
    ((b"a", Some(b"c"), Some(b"")), false), // an empty object
    // an object too long
    ((b"a", Some(b"c"), Some(&TOO_LONG_OBJECT)), false),
    ((b"a", None, Some(b"o")), false), // an object in no container
];

/// Whether names make a path or are refused as none, as is told.
fn make_path(alloc: Global, names: &Names, is_path: bool) -> bool {
    match Path::new(alloc, names.0, names.1, names.2) {
        Ok(_) => is_path,
        Err(fault) => !is_path && fault == PathFault::BadPath,
    }
}

#[test]
fn names_at_their_limits(rt: HostRuntime) {
    for (place, (names, is_path)) in LIMITS.iter().enumerate() {
        assert!(rt; make_path(rt.alloc(), names, *is_path), "{place}");
    }
}
