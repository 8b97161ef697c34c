//! The rows of the tables. Texts are as they stand in the table, numbers as SQL has them: what
//! they may be is for the caller to judge.

use std::rc::RcStr;

/// The row on the whole store.
#[derive(Debug, Drop)]
pub struct MetaRow {
    /// The key, which is 1.
    pub one: i64,
    pub schema: i64,
    /// The greatest hour of a request, 0 without any.
    pub hour: i64,
}

/// A ring.
#[derive(Debug, Drop)]
pub struct RingRow {
    pub name: String,
    pub power: i64,
    pub replicas: i64,
    pub min_hours: i64,
    pub next_id: i64,
    pub version: i64,
}

/// A device of a ring.
#[derive(Debug, Drop)]
pub struct DeviceRow {
    pub ring: String,
    pub id: i64,
    pub region: i64,
    pub zone: i64,
    pub address: String,
    pub port: i64,
    pub name: String,
    /// In hundredths.
    pub weight: i64,
    /// 1 where it is marked to be removed, else 0.
    pub removed: i64,
}

/// Which device a row is of.
#[derive(Debug, Drop)]
pub struct DeviceKey {
    pub ring: String,
    pub id: i64,
}

/// A seat, in a store of schema 1.
#[derive(Debug, Drop)]
pub struct SeatRow {
    pub ring: String,
    pub part: i64,
    pub replica: i64,
    pub device: i64,
}

/// The hour of a partition's last move, in a store of schema 1.
#[derive(Debug, Drop)]
pub struct MovedRow {
    pub ring: String,
    pub part: i64,
    pub hour: i64,
}

/// A published text of a ring.
#[derive(Debug, Drop)]
pub struct PublishedRow {
    pub ring: String,
    pub version: i64,
    /// It is shared with the ring that it is a text of.
    pub body: RcStr,
}

/// A decided request and its reply.
#[derive(Debug, Drop)]
pub struct RequestRow {
    pub caller: String,
    pub number: i64,
    /// How many requests were decided before it.
    pub place: i64,
    pub hour: i64,
    pub command: String,
    pub reply: String,
}

/// A partition of a ring.
#[derive(Debug, Drop)]
pub struct PartRow {
    pub ring: String,
    pub part: i64,
    /// The ids of the devices in order of replica, in two bytes each, the greater first.
    pub devices: Vec<u8>,
    /// The hour of the last move, -1 for never.
    pub hour: i64,
}

/// What is kept of a decided request, besides its caller and number.
#[derive(Debug, Drop)]
pub struct KeptRequest {
    /// How many requests were decided before it.
    pub place: i64,
    pub hour: i64,
    pub command: String,
    pub reply: String,
}
