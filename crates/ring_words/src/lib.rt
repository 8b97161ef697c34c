//! The words of a ring: devices, weights, addresses and names, and numbered requests and replies as
//! types. Each value is valid by its type, and a word that has a text has one spelling.
//!
//! The definitions that contracts cite stand in `specs/`, and `docs/definitions.md` lists them.
#![tactic(auto)]

mod address;
mod bounded;
mod command;
mod decimal;
mod device;
mod name;
mod request;
mod rows;
mod spelling;
mod weight;

pub use address::Address;
pub use bounded::{Bounded, GREATEST_POWER, MOST_REPLICAS, Port, Power, Replicas, partition_count};
pub use command::{
    Act, Command, Deed, DeviceAct, Done, Foretold, Kind, NewRing, Refusal, Reply, RowCause,
};
pub use decimal::{parse_decimal, parse_decimal_up_to};
pub use device::{Device, DeviceId, Row};
pub use name::{
    Caller, DeviceName, Name, NameFault, NameKind, OfCaller, OfDevice, OfRing, RingName,
};
pub use request::{
    Delivery, Hour, Key, Limits, MOST_DEVICES, MOST_IDS, MOST_NUMBERS, MOST_RINGS, MOST_VERSIONS,
};
pub use rows::Rows;
pub use spelling::{
    SpellingFault, read_address, read_bounded, read_name, read_number, read_number16, read_weight,
};
pub use weight::Weight;
