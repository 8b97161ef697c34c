//! Tests of the service over HTTP: what no contract says. Worked examples with their bytes, hostile
//! input, readers and writers that fail, and sockets. They stand in a crate of their own so that
//! those below are proved once, and not once more with their tests.
#![tactic(auto)]

#[cfg(test)]
mod audience;
#[cfg(test)]
mod faults;
#[cfg(test)]
mod hostile;
#[cfg(test)]
mod reads;
#[cfg(test)]
mod serving;
#[cfg(test)]
mod sockets;
