//! Opening books.
ghost use Rattle.std.specs.Prelude.{◌≡◌};
ghost use Rattle.programs.specs.Begun.{IsBegun};

use builder::RingMachine;
use request_book::{Book, Keeper};
use ring_words::Limits;
use std::alloc::Global;

/// Opens a book over a keeper, under the full limits.
pub(crate) fn open_book<K: Keeper<RingMachine>>(alloc: Global, keeper: K) -> Book<RingMachine, K>
    requires { K.fault_count keeper ≡ 0 }
    ensures { IsBegun (λ k. k ≡ keeper) result }
{
    let machine = RingMachine {
        limits: Limits::full(),
    };
    Book::open(alloc, machine, keeper)
}
