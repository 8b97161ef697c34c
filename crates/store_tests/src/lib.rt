//! Tests of the store: the rows that a change writes, and the keeper over memory and over files in
//! memory. There is no code here besides.
#![tactic(auto)]

#[cfg(test)]
mod changes;
#[cfg(test)]
mod fixtures;
#[cfg(test)]
mod keeper;
