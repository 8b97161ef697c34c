//! Where the programs find the stores and the files that words name.
ghost use Rattle.std.specs.Prelude.{◌≡◌, ◌≤◌, ℕ, IfErr, IfOk, List, length};
ghost use Rattle.builder.specs.Step.{State};
ghost use Rattle.byte_streams.specs.Counted.{one_more};
ghost use Rattle.ring_words.specs.Limits.{most_numbers};
ghost use Rattle.program_stores.specs.Faults.{IsCloseFault, IsFileFault, IsStoreFault};
ghost use Rattle.program_stores.specs.Stores.{Closing};
ghost use Rattle.program_stores.specs.declared.faults.ProgramFault.{ProgramFault};

use crate::faults::ProgramFault;
use builder::RingMachine;
use request_book::Keeper;
use ring_model::Rings;
use ring_words::Hour;

/// The stores that words name, and the files that they name besides. A store that is opened is a
/// keeper, which is closed in the end, and one that is made is finished.
///
/// Each call gives back what there is to speak of beside its answer: what is said of a store or a
/// file is said of a value that the call gave.
pub trait Stores: Drop {
    /// The keeper of a store that was opened.
    type Kept: Keeper<RingMachine>;

    /// What is left where a store wasn't opened.
    type Unopened: Drop;

    /// What is left where a store that was opened was closed, or couldn't be.
    type Closed: Drop;

    /// A store that was made.
    type Made: Drop;

    /// What is left where a store wasn't made.
    type Unmade: Drop;

    /// What is left where a store that was made was closed, or couldn't be.
    type Finished: Drop;

    /// What is left where a file was read, or wasn't.
    type Reader: Drop;

    /// How often a store was opened or made, or was to be. Only `open` and `make` raise it.
    ghost openings: { Self → ℕ };

    /// The keeper of a store of this name that is opened begins so.
    ghost begins: { List ℕ → Self.Kept → Type 0 };

    /// A store of this name wasn't opened, for this fault, and this is left.
    ghost refuses: { List ℕ → ProgramFault → Self.Unopened → Type 0 };

    /// This keeper was closed, which answered so, and this is left.
    ghost ends: { Self.Kept → Closing → Self.Closed → Type 0 };

    /// A store of this name was made that holds these rings and no request, and goes on from this
    /// hour.
    ghost is_made: { List ℕ → State → ℕ → Self.Made → Type 0 };

    /// Making a store of this name, of these rings and this hour, failed so, and this is left.
    ghost is_unmade: { List ℕ → State → ℕ → ProgramFault → Self.Unmade → Type 0 };

    /// This store that was made was closed, which answered so, and this is left.
    ghost finishes: { Self.Made → Closing → Self.Finished → Type 0 };

    /// The file of this name gave this text, and this is left of its reader.
    ghost holds: { List ℕ → List ℕ → Self.Reader → Type 0 };

    /// The file of this name gave no text of at most so many bytes, for this fault, and this is left
    /// of its reader.
    ghost is_unread: { List ℕ → ℕ → ProgramFault → Self.Reader → Type 0 };

    /// Opens the store of this name, and makes it where it is missing.
    fn open(
        &mut self,
        rt: &HostRuntime,
        name: &str,
    ) -> Result<Self::Kept, (ProgramFault, Self::Unopened)>
        ensures opened { openings self.new ≡ one_more (openings self.old) }
        ensures begins { IfOk result (begins name.now) }
        ensures faults { IfOk result (λ keeper. Self.Kept.fault_count keeper ≡ 0) }
        ensures refused { IfErr result (λ e. refuses name.now e.0 e.1) }
        ensures fault { IfErr result (λ e. IsStoreFault e.0) };

    /// Closes a store that was opened, so that all that it holds is in its place.
    fn close(keeper: Self::Kept) -> (Result<(), ProgramFault>, Self::Closed)
        ensures ends { ends keeper result.0 result.1 }
        ensures fault { IfErr result.0 IsCloseFault };

    /// Makes a store of this name, where there is none, of these rings. It has no request, and goes
    /// on from this hour.
    fn make(
        &mut self,
        rt: &HostRuntime,
        name: &str,
        rings: Rings,
        hour: Hour,
    ) -> Result<Self::Made, (ProgramFault, Self::Unmade)>
        ensures opened { openings self.new ≡ one_more (openings self.old) }
        ensures made { IfOk result (is_made name.now rings hour) }
        ensures unmade { IfErr result (λ e. is_unmade name.now rings hour e.0 e.1) }
        ensures fault { IfErr result (λ e. IsStoreFault e.0) };

    /// Closes a store that was made, so that all that it holds is in its place.
    fn finish(made: Self::Made) -> (Result<(), ProgramFault>, Self::Finished)
        ensures finishes { finishes made result.0 result.1 }
        ensures fault { IfErr result.0 IsCloseFault };

    /// The text of the file of this name, which is read to its end: at most so many bytes.
    fn read(
        rt: &HostRuntime,
        name: &str,
        most: u32,
    ) -> (Result<Vec<u8>, ProgramFault>, Self::Reader)
        ensures text { IfOk result.0 (λ text. holds name.now text.items result.1) }
        ensures short { IfOk result.0 (λ text. length text.items ≤ most) }
        ensures unread { IfErr result.0 (λ why. is_unread name.now most why result.1) }
        ensures fault { IfErr result.0 IsFileFault };

    /// A store that is opened has not failed, and keeps 100,000 requests.
    ghost opens_whole: { (name : List ℕ) (keeper : Self.Kept) → begins name keeper
        → (Self.Kept.fault_count keeper ≡ 0) × (Self.Kept.limit keeper ≡ most_numbers) };
}
