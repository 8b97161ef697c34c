//! Lists that stand in objects, written a part at a time.
ghost use Rattle.ring_messages.specs.Objects.{Adds, members_of};
ghost use Rattle.ring_reads.specs.Inner.Lists.{BeginsList, BeginsNext, EndsList, further_list};

use json::Writer;
use ring_messages::{Scalar, write_members};
use std::alloc::AllocError;

/// Writes these members, and begins a list under a key behind them.
fn write_to_list(
    writer: &mut Writer,
    key: &str,
    before: &[(&str, Scalar<'_>)],
) -> Result<(), AllocError>
    ensures { Adds result writer.old writer.new (further_list before.now key.now) }
{
    write_members(writer, before)?;
    writer.key(key)?;
    writer.begin_array()
}

/// Begins an object with these members, and a list under a key behind them.
pub(crate) fn begin_list(
    writer: &mut Writer,
    key: &str,
    before: &[(&str, Scalar<'_>)],
) -> Result<(), AllocError>
    ensures { BeginsList result writer.old writer.new key.now before.now }
{
    writer.begin_object()?;
    write_to_list(writer, key, before)
}

/// Ends a list, and begins another under a key, with these members between them.
pub(crate) fn next_list(
    writer: &mut Writer,
    key: &str,
    between: &[(&str, Scalar<'_>)],
) -> Result<(), AllocError>
    ensures { BeginsNext result writer.old writer.new key.now between.now }
{
    writer.end_array()?;
    write_to_list(writer, key, between)
}

/// Ends a list, and its object with these members behind it.
pub(crate) fn end_list(writer: &mut Writer, behind: &[(&str, Scalar<'_>)]) -> Result<(), AllocError>
    ensures { EndsList result writer.old writer.new (members_of behind.now) }
{
    writer.end_array()?;
    write_members(writer, behind)?;
    writer.end_object()
}
