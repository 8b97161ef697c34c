//! What the answers of a book are told as.
ghost use Rattle.std.specs.Prelude.{◌≡◌};
ghost use Rattle.ring_book.specs.Told.{told_fault, told_hidden, told_of};

use builder::Told;
use request_book::{Answer, Fault};
use ring_reads::Hidden;
use ring_words::{Refusal, Reply};

/// What a fault of the book is told as.
pub fn told_fault(fault: Fault) -> Told
    ensures { result ≡ told_fault fault }
{
    match fault {
        Fault::NumberReused => Told::NumberReused,
        Fault::BookFull => Told::BookFull,
        Fault::NoMemory => Told::NoMemory,
        Fault::StoreFault => Told::StoreFault,
        Fault::Closed => Told::Closed,
    }
}

/// What a delivery's answer is told as.
pub fn told_of(answer: Answer<Reply>) -> Told
    ensures { result ≡ told_of answer }
{
    match answer {
        Ok(reply) => Told::Reply(reply),
        Err(fault) => told_fault(fault),
    }
}

/// What is told where nothing is shown.
pub fn told_hidden(why: Hidden) -> Told
    ensures { result ≡ told_hidden why }
{
    match why {
        Hidden::NoRing => Told::Reply(Reply::Refused(Refusal::NoRing)),
        Hidden::NotAssigned => Told::Reply(Reply::Refused(Refusal::NotAssigned)),
        Hidden::NoVersion => Told::NoVersion,
        Hidden::BadText => Told::StoreFault,
        Hidden::TooFewDevices => Told::Reply(Reply::Refused(Refusal::TooFewDevices)),
        Hidden::NoMemory => Told::NoMemory,
    }
}
