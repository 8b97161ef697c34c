//! Publishing a ring's text.
ghost use Rattle.std.specs.Prelude.{◌≡◌, ◌<◌, false, IfOk, OnOk, filter, length, map, nat_lt};
ghost use Rattle.ring_words.specs.Limits.{most_versions};
ghost use Rattle.std.specs.List.Sorted.{IsStrictlyIncreasing};
ghost use Rattle.std.specs.Rc.{rc_str_bytes};
ghost use Rattle.ring_model.specs.Parts.{texts_of};
ghost use Rattle.ring_model.specs.Publish.{among, is_published, with_published};

use crate::ring::Ring;
use std::alloc::{AllocError, Global};
use std::rc::RcStr;

/// Drops the texts of all but earlier versions.
fn keep_earlier(published: &mut Vec<(u32, RcStr)>, version: u32)
    ensures { published.new.items ≡ filter (λ entry. nat_lt entry.0 version) published.old.items }
{
    published.retain(|entry| entry.0 < version);
}

/// Drops the texts of all but later versions.
fn keep_later(published: &mut Vec<(u32, RcStr)>, version: u32)
    ensures { published.new.items ≡ filter (λ entry. nat_lt version entry.0) published.old.items }
{
    published.retain(|entry| entry.0 > version);
}

/// Puts a text in its place among those of other versions.
fn put_among(published: &mut Vec<(u32, RcStr)>, version: u32, text: RcStr) -> Result<(), AllocError>
    ensures { OnOk result (texts_of published.new.items ≡ among version (rc_str_bytes text)
        (texts_of published.old.items)) }
{
    let mut later = published.clone()?;
    keep_later(&mut later, version);
    keep_earlier(published, version);
    published.push((version, text))?;
    published.append(&mut later)?;
    Ok(())
}

impl Ring {
    /// Whether a text is published under the version of now.
    pub fn is_published(&self) -> bool
        ensures { result ≡ is_published self.now }
    {
        self.published(self.version()).is_some()
    }

    /// The ring with a text published under its version of now, and the ring as it is where one is
    /// already: what was published once never changes. The version stays.
    pub fn with_published(&self, alloc: Global, text: &str) -> Result<Ring, AllocError>
        requires { is_published self.now ≡ false → length self.now.published < most_versions }
        ensures { IfOk result (λ ring. ring ≡ with_published self.now text.now) }
    {
        let mut parts = self.parts()?;
        if self.is_published() {
            return Ok(Ring::of_parts(parts));
        }
        let text = RcStr::from_str(alloc, text)?;
        put_among(&mut parts.published, parts.version, text)?;
        Ok(Ring::of_parts(parts))
    }
}
