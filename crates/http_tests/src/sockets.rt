//! The service over sockets of this machine, and over sockets that are not there.
mod doubles;
mod hours;
mod looping;
mod patience;
mod serving;
