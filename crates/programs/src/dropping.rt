//! What programs ask of stores. They keep the answer, and drop what is left beside it: that it is as
//! the answer says stays in the clauses.
ghost use Rattle.std.specs.Prelude.{◌≡◌, ◌≤◌, IfErr, IfOk, OnOk, length};
ghost use Rattle.program_stores.specs.Faults.{IsCloseFault, IsFileFault, IsStoreFault};
ghost use Rattle.programs.specs.Begun.{OpensOne};
ghost use Rattle.programs.specs.Left.{Closes, FailsToMake, GivesNoText, GivesText, MakesStore};
ghost use Rattle.programs.specs.Left.{RefusesToOpen};

use program_stores::{ProgramFault, Stores};
use request_book::Keeper;
use ring_model::Rings;
use ring_words::Hour;

/// Opens the store of this name, and makes it where it is missing.
pub(crate) fn open_store<S: Stores>(
    rt: &HostRuntime,
    name: &str,
    stores: &mut S,
) -> Result<S::Kept, ProgramFault>
    ensures opened { OpensOne (S.openings stores.old) (S.openings stores.new) }
    ensures begins { IfOk result (S.begins name.now) }
    ensures faults { IfOk result (λ keeper. S.Kept.fault_count keeper ≡ 0) }
    ensures refused { IfErr result (RefusesToOpen S.Stores name.now) }
    ensures fault { IfErr result IsStoreFault }
{
    match stores.open(rt, name) {
        Ok(keeper) => Ok(keeper),
        Err((fault, _left)) => Err(fault),
    }
}

/// Closes a store that was opened, so that all that it holds is in its place.
pub(crate) fn close_store<S: Stores>(keeper: S::Kept) -> Result<(), ProgramFault>
    ensures ends { Closes S.Stores keeper result }
    ensures fault { IfErr result IsCloseFault }
{
    let (closed, _left) = S::close(keeper);
    closed
}

/// Makes a store of this name, where there is none, of these rings, and closes it. It has no request,
/// and goes on from this hour.
pub(crate) fn make_store<S: Stores>(
    rt: &HostRuntime,
    name: &str,
    rings: Rings,
    hour: Hour,
    stores: &mut S,
) -> Result<(), ProgramFault>
    ensures opened { OpensOne (S.openings stores.old) (S.openings stores.new) }
    ensures made { OnOk result (MakesStore S.Stores name.now rings hour) }
    ensures unmade { IfErr result (FailsToMake S.Stores name.now rings hour) }
    ensures fault { IfErr result IsStoreFault }
{
    match stores.make(rt, name, rings, hour) {
        Ok(made) => {
            let (closed, _left) = S::finish(made);
            closed
        }
        Err((fault, _left)) => Err(fault),
    }
}

/// The text of the file of this name, which is read to its end: at most so many bytes.
pub(crate) fn read_text<S: Stores>(
    rt: &HostRuntime,
    name: &str,
    most: u32,
) -> Result<Vec<u8>, ProgramFault>
    ensures text { IfOk result (λ text. GivesText S.Stores name.now text.items) }
    ensures short { IfOk result (λ text. length text.items ≤ most) }
    ensures unread { IfErr result (GivesNoText S.Stores name.now most) }
    ensures fault { IfErr result IsFileFault }
{
    let (text, _left) = S::read(rt, name, most);
    text
}
