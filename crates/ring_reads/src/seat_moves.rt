//! Which seats differ between two rings that were published of one.
ghost use Rattle.std.specs.Prelude.{◌≡◌, ◌+◌, ◌-◌, ◌*◌, ◌/◌, ◌^◌, ◌∷◌, ◌++◌, [], IfOk, OnOk};
ghost use Rattle.std.specs.Prelude.{filter, max, slice_get};
ghost use Rattle.ring_reads.specs.SeatMoves.{common_power, is_move, move_at};
ghost use Rattle.ring_reads.specs.SeatMoves.{moved_partitions, partition_moves, raised_seat};
ghost use Rattle.ring_reads.specs.SeatMoves.{seat_moves};

use crate::moves::differ;
use ring_text::Snapshot;
use ring_words::{DeviceId, Power, partition_count};
use std::alloc::{AllocError, Global};

/// A seat, and where it was and is; `None` for a ring that has no such seat.
#[derive(Clone, Copy)]
pub(crate) struct Move {
    pub(crate) partition: u32,
    pub(crate) replica: u16,
    pub(crate) from: Option<DeviceId>,
    pub(crate) to: Option<DeviceId>,
}

/// The seats that differ, by partition and then by replica, and how many partitions have one.
#[derive(Drop)]
pub(crate) struct Moves {
    pub(crate) list: Vec<Move>,
    pub(crate) partitions: usize,
}

/// The greater power.
fn common_power(old: &Snapshot, new: &Snapshot) -> Power
    ensures { result ≡ common_power old.now new.now }
{
    if old.power().get() < new.power().get() {
        new.power()
    } else {
        old.power()
    }
}

/// The greater number of replicas.
fn replica_count(old: &Snapshot, new: &Snapshot) -> u16
    ensures { result ≡ max old.now.replicas new.now.replicas }
{
    old.replicas().get().max(new.replicas().get())
}

/// The partition that became this one among others, where its ring was raised from its own power to
/// this one.
fn parent_of(partition: u32, power: Power, own: Power) -> u32
    ensures { result ≡ partition / 2 ^ (power - own) }
{
    partition / (1u32 << power.get().saturating_sub(own.get()))
}

/// The place of a seat among those of a ring of so many replicas.
fn place_of(partition: u32, replicas: u16, replica: u16) -> usize
    ensures { result ≡ partition * replicas + replica }
{
    partition as usize * usize::from(replicas) + usize::from(replica)
}

fn seat_at(seats: &[DeviceId], place: usize) -> Option<DeviceId>
    ensures { result ≡ slice_get seats.now place }
{
    seats.get(place).copied()
}

/// The device on a seat of a ring that was raised to a power.
fn raised_seat(ring: &Snapshot, power: Power, partition: u32, replica: u16) -> Option<DeviceId>
    ensures { result ≡ raised_seat ring.now power partition replica }
{
    let replicas = ring.replicas().get();
    if replica >= replicas {
        return None;
    }
    let parent = parent_of(partition, power, ring.power());
    let seats = ring.seats();
    seat_at(seats, place_of(parent, replicas, replica))
}

/// A seat of two rings that were raised to a power.
fn move_at(old: &Snapshot, new: &Snapshot, power: Power, partition: u32, replica: u16) -> Move
    ensures { result ≡ move_at old.now new.now power partition replica }
{
    let from = raised_seat(old, power, partition, replica);
    let to = raised_seat(new, power, partition, replica);
    Move {
        partition,
        replica,
        from,
        to,
    }
}

/// Adds a seat if it differs.
fn push_move(into: &mut Vec<Move>, one: Move) -> Result<(), AllocError>
    ensures { OnOk result (into.new.items ≡ into.old.items ++ filter is_move (one ∷ [])) }
{
    if !differ(one.from, one.to) {
        return Ok(());
    }
    into.push(one)?;
    Ok(())
}

/// Adds the seats of a partition that differ.
fn push_moves(
    into: &mut Vec<Move>,
    old: &Snapshot,
    new: &Snapshot,
    power: Power,
    partition: u32,
) -> Result<(), AllocError>
    ensures { OnOk result (into.new.items ≡ into.old.items ++
        partition_moves old.now new.now power partition) }
{
    for replica in 0..replica_count(old, new) {
        push_move(into, move_at(old, new, power, partition, replica))?;
    }
    Ok(())
}

/// The seats that differ between two rings.
pub(crate) fn moves_between(
    alloc: Global,
    old: &Snapshot,
    new: &Snapshot,
) -> Result<Moves, AllocError>
    ensures list { IfOk result (λ moves. moves.list.items ≡ seat_moves old.now new.now) }
    ensures partitions { IfOk result (λ moves. moves.partitions
        ≡ moved_partitions old.now new.now) }
{
    let power = common_power(old, new);
    let mut list = Vec::new(alloc);
    let mut partitions = 0;
    for partition in 0..partition_count(power) {
        let before = list.len();
        push_moves(&mut list, old, new, power, partition as u32)?;
        if list.len() > before {
            partitions += 1;
        }
    }
    Ok(Moves { list, partitions })
}
