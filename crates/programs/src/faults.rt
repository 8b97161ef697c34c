//! How it is told why a program ends.
ghost use Rattle.std.specs.Prelude.{◌≡◌};
ghost use Rattle.programs.specs.Faults.{GetsText, fault_line, serve_fault};

use byte_streams::{CountedWriter, write_text};
use http_sockets::ServeFault;
use program_stores::ProgramFault;
use std::io::Write;

/// What the fault of a service is told as.
pub(crate) fn serve_fault(fault: ServeFault) -> ProgramFault
    ensures { result ≡ serve_fault fault }
{
    match fault {
        ServeFault::NetFailed => ProgramFault::NetFailed,
        ServeFault::Stream(fault) => ProgramFault::from(fault),
    }
}

/// The line that tells a fault: the program, the fault's name and its number.
fn fault_line(fault: ProgramFault) -> &'static str
    ensures { result.now ≡ fault_line fault }
{
    match fault {
        ProgramFault::NoRing => "ringd: NoRing 1\n",
        ProgramFault::RingExists => "ringd: RingExists 2\n",
        ProgramFault::TooManyRings => "ringd: TooManyRings 3\n",
        ProgramFault::TooFewDevices => "ringd: TooFewDevices 9\n",
        ProgramFault::NotAssigned => "ringd: NotAssigned 10\n",
        ProgramFault::Unreadable => "ringd: Unreadable 20\n",
        ProgramFault::NoMemory => "ringd: NoMemory 23\n",
        ProgramFault::StoreFault => "ringd: StoreFault 24\n",
        ProgramFault::BadStore => "ringd: BadStore 26\n",
        ProgramFault::NoFile => "ringd: NoFile 27\n",
        ProgramFault::NetFailed => "ringd: NetFailed 28\n",
        ProgramFault::TooLong => "ringd: TooLong 29\n",
        ProgramFault::BadPath => "ringd: BadPath 30\n",
        ProgramFault::BadText => "ringd: BadText 31\n",
        ProgramFault::NoVersion => "ringd: NoVersion 32\n",
        ProgramFault::ClockAhead => "ringd: ClockAhead 33\n",
        ProgramFault::ReadFailed => "ringd: ReadFailed 50\n",
        ProgramFault::WriteFailed => "ringd: WriteFailed 51\n",
    }
}

/// Tells a text. Where it can't be written, the program goes on without it.
pub(crate) fn tell_text<E: Write>(errors: &mut CountedWriter<E>, text: &str)
    ensures { GetsText E.contents errors.old errors.new text.now }
{
    let _ = write_text(errors, text.as_bytes());
}

/// Tells a fault in one line. Where even that can't be written, the exit status alone tells it.
pub(crate) fn tell_fault<E: Write>(errors: &mut CountedWriter<E>, fault: ProgramFault)
    ensures { GetsText E.contents errors.old errors.new (fault_line fault) }
{
    tell_text(errors, fault_line(fault));
}
