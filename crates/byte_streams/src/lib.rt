//! Streams of bytes that are read and written: faults with their cause, a buffer for answers, and
//! what it means that a stream was served.
//!
//! A reader and a writer are counted: `CountedReader` and `CountedWriter` count their own faults,
//! so a caller who is told `ReadFailed` or `WriteFailed` can see that the reader or the writer
//! really failed. A `WholeReader` is read to its end, for nobody waits at it. `Outbox` gathers answers and writes them in large pieces. `specs/Serving.antt`
//! says what serving a stream wrote and left, whole, after a failed read and after a failed write,
//! whatever the items of the stream are.
#![tactic(auto)]

mod counted;
mod fault;
mod input;
mod output;

pub use counted::{CountedReader, CountedWriter, WholeReader};
pub use fault::StreamFault;
pub use input::{CHUNK, new_chunk, read_all, read_some};
pub use output::{Outbox, write_text};
