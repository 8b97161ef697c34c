//! Queries.
ghost use Rattle.std.specs.Prelude.{◌≡◌, ◌≢◌, ℕ, List, [], ◌∷◌, ◌≤◌, IfErr, IfOk, OnOk, Option};
ghost use Rattle.std.specs.Prelude.{length, map, string_bytes};
ghost use Rattle.std.specs.Option.{option_to_list};
ghost use Rattle.http_routes.specs.Queries.{pairs_of, values_of_pairs, IsImportQuery, IsPathQuery};
ghost use Rattle.http_routes.specs.Queries.{IsLogQuery, IsMovesQuery, IsPreviewQuery};
ghost use Rattle.http_routes.specs.Inner.Pairs.{IsValueFound, IsValueOr, ReadsPath, decoded};
ghost use Rattle.http_routes.specs.Inner.Pairs.{pair_text};
ghost use Rattle.ring_words.specs.Spelling.{Reads};

use form_urlencoded::{decode, raw_pairs};
use path_lookup::{Path, PathFault};
use ring_log::read_size;
use ring_words::{Caller, Hour, Key, SpellingFault, read_name, read_number};
use std::alloc::{AllocError, Global};

/// A pair of a query.
#[derive(Drop)]
struct Pair {
    name: String,
    value: String,
}

/// How often a name comes in a query.
#[derive(Clone, Copy)]
enum ValueFound<'q> {
    Missing,
    One(&'q str),
    Several,
}

fn read_pair(alloc: Global, name: &[u8], value: &[u8]) -> Result<Pair, AllocError>
    ensures { IfOk result (λ pair. pair_text pair ≡ decoded (name.now, value.now)) }
{
    let name = decode(alloc, name)?.into_owned(alloc)?;
    let value = decode(alloc, value)?.into_owned(alloc)?;
    Ok(Pair { name, value })
}

/// The pairs of a query.
fn read_pairs(alloc: Global, query: &[u8]) -> Result<Vec<Pair>, AllocError>
    ensures { IfOk result (λ pairs. map pair_text pairs.items ≡ pairs_of query.now) }
{
    let mut pairs = Vec::new(alloc);
    for (name, value) in raw_pairs(query) {
        pairs.push(read_pair(alloc, name, value)?)?;
    }
    Ok(pairs)
}

/// The value of the pair of this name, if there is one such pair.
fn find<'q>(pairs: &'q [Pair], name: &str) -> ValueFound<'q>
    ensures { IsValueFound result (values_of_pairs name.now (map pair_text pairs.now)) }
{
    let mut found = ValueFound::Missing;
    for pair in pairs {
        if pair.name.as_str() == name {
            found = match found {
                ValueFound::Missing => ValueFound::One(pair.value.as_str()),
                _ => ValueFound::Several,
            };
        }
    }
    found
}

/// The value of the pair of this name, or another where there is none, and how many such pairs there
/// are. Bad exactly where there are several.
fn value_or<'q>(
    pairs: &'q [Pair],
    name: &str,
    other: &'q str,
) -> Result<(&'q str, usize), SpellingFault>
    ensures found { IfOk result (λ x. IsValueOr name.now other.now (map pair_text pairs.now) x.0.now
        x.1) }
    ensures few { IfOk result (λ x. x.1 ≤ 1) }
    ensures several { IfErr result (λ fault. (text : Option (List ℕ)) →
        values_of_pairs name.now (map pair_text pairs.now) ≡ option_to_list text → ⊥) }
{
    match find(pairs, name) {
        ValueFound::Missing => Ok((other, 0)),
        ValueFound::One(value) => Ok((value, 1)),
        ValueFound::Several => Err(SpellingFault::Bad),
    }
}

/// That there are so many pairs. Bad exactly where there are more or fewer.
fn are_all(pairs: &[Pair], count: usize) -> Result<(), SpellingFault>
    ensures all { OnOk result (length pairs.now ≡ count) }
    ensures others { IfErr result (λ fault. length pairs.now ≢ count) }
{
    if pairs.len() == count {
        Ok(())
    } else {
        Err(SpellingFault::Bad)
    }
}

/// The key that the query of an import says. Bad exactly where it is no such query.
pub fn read_key(alloc: Global, query: &[u8]) -> Result<Key, SpellingFault>
    ensures { Reads (IsImportQuery (pairs_of query.now)) result }
{
    let pairs = read_pairs(alloc, query)?;
    let ValueFound::One(caller) = find(&pairs, "caller") else {
        return Err(SpellingFault::Bad);
    };
    let ValueFound::One(number) = find(&pairs, "number") else {
        return Err(SpellingFault::Bad);
    };
    if pairs.len() != 2 {
        return Err(SpellingFault::Bad);
    }
    let number = read_number(number, u32::MAX)?;
    let caller: Caller = read_name(alloc, caller)?;
    Ok(Key { caller, number })
}

/// The path that the query of a lookup says. BadPath exactly where it is no such query, or the
/// names are not of their forms.
pub fn read_path(alloc: Global, query: &[u8]) -> Result<Path, PathFault>
    ensures { ReadsPath (pairs_of query.now) result }
{
    let pairs = read_pairs(alloc, query)?;
    let ValueFound::One(account) = find(&pairs, "account") else {
        return Err(PathFault::BadPath);
    };
    let mut known = 1;
    let container = match find(&pairs, "container") {
        ValueFound::Missing => None,
        ValueFound::One(container) => {
            known += 1;
            Some(container.as_bytes())
        }
        ValueFound::Several => return Err(PathFault::BadPath),
    };
    let object = match find(&pairs, "object") {
        ValueFound::Missing => None,
        ValueFound::One(object) => {
            known += 1;
            Some(object.as_bytes())
        }
        ValueFound::Several => return Err(PathFault::BadPath),
    };
    if pairs.len() != known {
        return Err(PathFault::BadPath);
    }
    Path::new(alloc, account.as_bytes(), container, object)
}

/// The seed and the hour that the query of a preview says; the hour is 0 where it says none. Bad
/// exactly where it is no such query.
pub fn read_seed(alloc: Global, query: &[u8]) -> Result<(u32, Hour), SpellingFault>
    ensures { Reads (λ x. IsPreviewQuery (pairs_of query.now) x.0 x.1) result }
{
    let pairs = read_pairs(alloc, query)?;
    let ValueFound::One(seed) = find(&pairs, "seed") else {
        return Err(SpellingFault::Bad);
    };
    let mut known = 1;
    let hour = match find(&pairs, "hour") {
        ValueFound::Missing => "0",
        ValueFound::One(hour) => {
            known += 1;
            hour
        }
        ValueFound::Several => return Err(SpellingFault::Bad),
    };
    if pairs.len() != known {
        return Err(SpellingFault::Bad);
    }
    let seed = read_number(seed, u32::MAX)?;
    let hour = read_number(hour, u32::MAX)?;
    Ok((seed, hour))
}

/// The two versions that the query of what moved says. Bad exactly where it is no such query.
pub fn read_versions(alloc: Global, query: &[u8]) -> Result<(u32, u32), SpellingFault>
    ensures { Reads (λ x. IsMovesQuery (pairs_of query.now) x.0 x.1) result }
{
    let pairs = read_pairs(alloc, query)?;
    let ValueFound::One(from) = find(&pairs, "from") else {
        return Err(SpellingFault::Bad);
    };
    let ValueFound::One(to) = find(&pairs, "to") else {
        return Err(SpellingFault::Bad);
    };
    if pairs.len() != 2 {
        return Err(SpellingFault::Bad);
    }
    let from = read_number(from, u32::MAX)?;
    let to = read_number(to, u32::MAX)?;
    Ok((from, to))
}

/// From which place on how many entries of the log a query asks for: from 0 on where it says no place,
/// and 100 where it says no number. Bad exactly where it is no such query.
pub fn read_part(alloc: Global, query: &[u8]) -> Result<(u32, u32), SpellingFault>
    ensures { Reads (λ x. IsLogQuery (pairs_of query.now) x.0 x.1) result }
{
    let pairs = read_pairs(alloc, query)?;
    let (from, places) = value_or(&pairs, "from", "0")?;
    let (most, sizes) = value_or(&pairs, "most", "100")?;
    are_all(&pairs, places + sizes)?;
    let place = read_number(from, u32::MAX)?;
    let size = read_size(most)?;
    Ok((place, size))
}
