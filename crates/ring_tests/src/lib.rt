//! Tests of the crates of words and rings: what no contract says. Worked examples with their bytes,
//! each public call on its happy path, and the fast forms against plain ones. They stand in a crate
//! of their own so that those below are proved once, and not once more with their tests.
#![tactic(auto)]

/// A ring of a table that differs from another one in some fields, in fewer lines than a struct's.
macro_rules! ring_like {
    ($base:ident, $($field:ident: $value:expr),+) => { RingRow { $($field: $value,)+ ..$base } };
}

/// A device of a table that differs from another one in some fields, likewise.
macro_rules! device_like {
    ($base:ident, $($field:ident: $value:expr),+) => { DeviceRow { $($field: $value,)+ ..$base } };
}

#[cfg(test)]
mod csv;
#[cfg(test)]
mod fixtures;
#[cfg(test)]
mod founding;
#[cfg(test)]
mod metrics;
#[cfg(test)]
mod model;
#[cfg(test)]
mod moves;
#[cfg(test)]
mod paths;
#[cfg(test)]
mod previews;
#[cfg(test)]
mod random_rings;
#[cfg(test)]
mod reads;
#[cfg(test)]
mod rebalances;
#[cfg(test)]
mod scans;
#[cfg(test)]
mod share;
#[cfg(test)]
mod stops;
#[cfg(test)]
mod swift;
#[cfg(test)]
mod tables;
#[cfg(test)]
mod text;
#[cfg(test)]
mod words;
