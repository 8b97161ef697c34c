//! Tests of the crates of requests, of the machine, of the lines that the program answers, and of the
//! words of the command line: what no contract says. Every command at full size, where there is
//! memory, worked rows with their bytes, and readers, writers and keepers that fail. There is no code
//! here besides.
#![tactic(auto)]

#[cfg(test)]
mod book;
#[cfg(test)]
mod lines;
#[cfg(test)]
mod messages;
#[cfg(test)]
mod quotes;
#[cfg(test)]
mod sizes;
#[cfg(test)]
mod streams;
#[cfg(test)]
mod words;
#[cfg(test)]
mod worked;
