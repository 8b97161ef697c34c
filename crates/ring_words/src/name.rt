//! Names of rings, callers and devices.
ghost use Rattle.std.specs.Prelude.{◌≡◌, refl, ◌↔◌, ◌≢◌, Bool, ℕ, List, IfOk, IsErrOf, IsTrue};
ghost use Rattle.std.specs.Prelude.{Some, nat_eq, true};
ghost use Rattle.std.specs.List.{list_all};
ghost use Rattle.std.specs.Cmp.Lexicographic.{pointwise, nat_list_eq_equiv};
ghost use Rattle.std.specs.Cmp;
ghost use Rattle.ring_words.specs.Texts.{is_label, is_label_byte, is_device_name};
ghost use Rattle.ring_words.specs.Texts.{is_device_name_byte};
ghost use Rattle.std.specs.Cmp.Lexicographic.{slice_cmp, nat_list_cmp_total, texts_po, texts_ties};
ghost use Rattle.std.specs.Ordering.{nat_cmp};

use crate::spelling::SpellingFault;
use std::alloc::{AllocError, Global};
use std::cmp::Ordering;
use std::fmt;
use std::marker::{Model, PhantomData};
use std::rc::RcStr;

/// Why a text isn't made a name.
pub type NameFault = SpellingFault;

/// What a kind of name allows.
pub trait NameKind {
    ghost allows: { List ℕ → Bool };

    /// Whether a text is of the form of such a name.
    fn allows(text: &str) -> bool
        ensures { result ≡ allows text.now };
}

/// How many bytes a name has at most.
const LONGEST_NAME: usize = 32;

fn is_label_byte(byte: u8) -> bool
    ensures { result ≡ is_label_byte byte }
{
    byte.is_ascii_lowercase() || byte.is_ascii_digit() || byte == b'-'
}

fn are_label_bytes(bytes: &[u8]) -> bool
    ensures { result ≡ list_all is_label_byte bytes.now }
{
    bytes.iter().all(|byte| is_label_byte(*byte))
}

/// Whether a text is 1 to 32 bytes of `a` to `z`, `0` to `9` and `-`, the first a letter.
fn is_label(text: &str) -> bool
    ensures { result ≡ is_label text.now }
{
    let bytes = text.as_bytes();
    !bytes.is_empty()
        && bytes.len() <= LONGEST_NAME
        && bytes[0].is_ascii_lowercase()
        && are_label_bytes(bytes)
}

fn is_device_name_byte(byte: u8) -> bool
    ensures { result ≡ is_device_name_byte byte }
{
    byte.is_ascii_alphanumeric() || byte == b'_' || byte == b'-'
}

fn are_device_name_bytes(bytes: &[u8]) -> bool
    ensures { result ≡ list_all is_device_name_byte bytes.now }
{
    bytes.iter().all(|byte| is_device_name_byte(*byte))
}

/// Whether a text is 1 to 32 bytes of `A` to `Z`, `a` to `z`, `0` to `9`, `_` and `-`.
fn is_device_name(text: &str) -> bool
    ensures { result ≡ is_device_name text.now }
{
    let bytes = text.as_bytes();
    !bytes.is_empty() && bytes.len() <= LONGEST_NAME && are_device_name_bytes(bytes)
}

/// The kind of a ring's name.
#[derive(Clone, Copy)]
pub struct OfRing;

impl NameKind for OfRing {
    ghost allows = { is_label };

    fn allows(text: &str) -> bool {
        is_label(text)
    }
}

/// The kind of a caller's name.
#[derive(Clone, Copy)]
pub struct OfCaller;

impl NameKind for OfCaller {
    ghost allows = { is_label };

    fn allows(text: &str) -> bool {
        is_label(text)
    }
}

/// The kind of a device's name.
#[derive(Clone, Copy)]
pub struct OfDevice;

impl NameKind for OfDevice {
    ghost allows = { is_device_name };

    fn allows(text: &str) -> bool {
        is_device_name(text)
    }
}

/// A name of a kind. Contracts see its bytes. Clones share the text.
#[derive(Drop)]
pub struct Name<K: NameKind> {
    text: RcStr,
    kind: PhantomData<K>,
}

/// The name of a ring: 1 to 32 bytes of `a` to `z`, `0` to `9` and `-`, the first a letter.
pub type RingName = Name<OfRing>;

/// Who numbers requests: 1 to 32 bytes of `a` to `z`, `0` to `9` and `-`, the first a letter.
pub type Caller = Name<OfCaller>;

/// The name of a device: 1 to 32 bytes of `A` to `Z`, `a` to `z`, `0` to `9`, `_` and `-`.
pub type DeviceName = Name<OfDevice>;

impl<K: NameKind> Model for Name<K> {
    ghost use Rattle.std.specs.Prelude.{ℕ, List, IsTrue};
    ghost use Rattle.std.specs.Rc.{rc_str_bytes};

    ghost Value = { List ℕ };

    ghost view = { λ n. rc_str_bytes n.text };

    ghost invariant = { λ n. IsTrue (K.allows (rc_str_bytes n.text)) };
}

impl<K: NameKind> Name<K> {
    /// The name of this text. Bad exactly where the text isn't of the kind's form.
    pub fn new(alloc: Global, text: &str) -> Result<Self, NameFault>
        ensures name { IfOk result (λ name. name ≡ text.now) }
        ensures good { IfOk result (λ _. IsTrue (K.allows text.now)) }
        ensures bad { IsErrOf result SpellingFault.Bad ↔ (K.allows text.now ≢ true) }
    {
        if !K::allows(text) {
            return Err(NameFault::Bad);
        }
        let text = RcStr::from_str(alloc, text)?;
        Ok(Name {
            text,
            kind: PhantomData,
        })
    }

    /// The text.
    pub fn as_str(&self) -> &str
        ensures text { result.now ≡ self.now }
        ensures valid { IsTrue (K.allows self.now) }
    {
        self.text.as_str()
    }
}

impl<K: NameKind> Clone for Name<K> {
    ghost is_clone = { λ name copy. copy ≡ name };

    fn clone(&self) -> Result<Name<K>, AllocError> {
        let text = self.text.clone()?;
        Ok(Name {
            text,
            kind: PhantomData,
        })
    }
}

impl<K: NameKind> PartialEq for Name<K> {
    ghost eq = { pointwise nat_eq };

    ghost laws = { Cmp.partial_equiv_from_equiv nat_list_eq_equiv };

    fn eq(&self, other: &Name<K>) -> bool {
        self.text == other.text
    }
}

impl<K: NameKind> Eq for Name<K> {
    ghost laws = { nat_list_eq_equiv };
}

impl<K: NameKind> PartialOrd for Name<K> {
    ghost partial_cmp = { λ a b. Some (slice_cmp nat_cmp a b) };

    ghost laws = { texts_po };

    fn partial_cmp(&self, other: &Name<K>) -> Option<Ordering> {
        Some(self.cmp(other))
    }
}

impl<K: NameKind> Ord for Name<K> {
    ghost cmp = { slice_cmp nat_cmp };

    ghost total = { nat_list_cmp_total };

    ghost matches_partial_cmp = { λ a b. refl };

    ghost matches_eq = { texts_ties };

    fn cmp(&self, other: &Name<K>) -> Ordering {
        self.text.cmp(&other.text)
    }
}

impl<K: NameKind> fmt::Display for Name<K> {
    ghost output = { λ name. Some name };

    fn fmt<W: fmt::Write>(&self, f: &mut fmt::Formatter<W>) -> fmt::Result {
        write!(f, "{}", self.text)
    }
}
