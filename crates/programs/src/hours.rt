//! The hours at which programs decide.
ghost use Rattle.programs.specs.Serving.{IsSet, TellsHour};

use http_api::Clock;
use http_sockets::HourClock;
use ring_words::Hour;

/// A clock that tells the given hour, or else that of the machine.
pub(crate) fn new_clock(rt: &HostRuntime, given: Option<Hour>) -> HourClock<&HostRuntime>
    ensures { IsSet given result }
{
    HourClock::new(rt, given)
}

/// What such a clock tells first.
pub(crate) fn hour_of(rt: &HostRuntime, given: Option<Hour>) -> Hour
    ensures { TellsHour given result }
{
    let mut clock = new_clock(rt, given);
    clock.hour()
}
