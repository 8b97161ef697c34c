//! The builder as a machine for the book of numbered requests.
ghost use Rattle.std.specs.Prelude.{◌≡◌, [], true};
ghost use Rattle.builder.specs.Step.{Step, is_refused};
ghost use Rattle.builder.specs.Refusals.{refused_keeps};

use crate::deciding::decide;
use request_book::Machine;
use ring_model::Rings;
use ring_words::{Command, Hour, Limits, Reply};
use std::alloc::{AllocError, Global};

/// The builder under limits: its states are rings, and its steps are those of the definition
/// *Step*.
#[derive(Clone, Copy)]
pub struct RingMachine {
    /// How much is kept at most.
    pub limits: Limits,
}

impl Machine for RingMachine {
    type State = Rings;

    type Command = Command;

    type Reply = Reply;

    ghost step = { λ machine rings hour command reply after. Step machine.limits rings hour command
        reply after };

    ghost refuses = { is_refused };

    ghost begins = { λ machine rings. rings ≡ [] };

    ghost refusal_keeps = { λ machine old new hour command reply step refused. refused_keeps
        machine.limits old new hour command reply step refused };

    fn start(&self, alloc: Global) -> Rings {
        Rings::new(alloc)
    }

    fn decide(
        &self,
        alloc: Global,
        state: &Rings,
        hour: Hour,
        command: &Command,
    ) -> Result<(Rings, Reply), AllocError> {
        decide(alloc, state, hour, command, &self.limits)
    }

    fn same(a: &Command, b: &Command) -> bool {
        a.is(b)
    }

    fn copy(command: &Command) -> Result<Command, AllocError> {
        command.copy()
    }

    fn is_refusal(reply: &Reply) -> bool {
        matches!(reply, Reply::Refused(_))
    }
}
