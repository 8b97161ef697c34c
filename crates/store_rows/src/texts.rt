//! Whether published texts are those of their rings.
ghost use Rattle.std.specs.Prelude.{◌≡◌, ◌↔◌, All, IsTrue};
ghost use Rattle.std.specs.Rc.{rc_str_bytes};
ghost use Rattle.ring_model.specs.Parts.{texts_of};
ghost use Rattle.ring_words.specs.Spelling.{Reads};
ghost use Rattle.store_rows.specs.OwnTexts.{HavePublishedOwn, IsOwnText};

use ring_model::Rings;
use ring_text::laws::one_spelling;
use ring_text::{Snapshot, read_ring};
use ring_words::{RingName, SpellingFault};
use std::alloc::Global;
use std::rc::RcStr;

/// Whether a snapshot is of a ring of this name at this version.
fn is_of(told: &Snapshot, name: &RingName, version: u32) -> bool
    ensures { IsTrue result ↔ (told.now.name ≡ name.now) × (told.now.version ≡ version) }
{
    told.version() == version && told.name() == name
}

/// Judges what a ring published under a version. Bad where it is not the text of a ring of that name
/// at that version.
fn judge_text(
    alloc: Global,
    name: &RingName,
    version: u32,
    text: &RcStr,
) -> Result<(), SpellingFault>
    ensures { Reads (λ _. IsOwnText name.now (version, rc_str_bytes text.now)) result }
{
    one_spelling();
    let told = read_ring(alloc, text.as_bytes())?;
    if is_of(&told, name, version) {
        Ok(())
    } else {
        Err(SpellingFault::Bad)
    }
}

/// Judges all that a ring published, likewise.
fn judge_texts_of(
    alloc: Global,
    name: &RingName,
    published: &[(u32, RcStr)],
) -> Result<(), SpellingFault>
    ensures { Reads (λ _. All (IsOwnText name.now) (texts_of published.now)) result }
{
    for entry in published {
        judge_text(alloc, name, entry.0, &entry.1)?;
    }
    Ok(())
}

/// Judges all that rings published: each text has to be the text of a ring of its ring's name at the
/// version under which it was published. Bad where one is not.
pub fn judge_texts(alloc: Global, rings: &Rings) -> Result<(), SpellingFault>
    ensures { Reads (λ _. HavePublishedOwn rings.now) result }
{
    for entry in rings.list() {
        judge_texts_of(alloc, &entry.0, entry.1.as_ref().published_list())?;
    }
    Ok(())
}
