//! The words of the command line of `ringd`, as `clap` reads them.
//!
//! `task_of` says which program the words ask for, with the text or number of each of its
//! arguments. What a text stands for, a ring's name, say, is for the program to judge.
#![tactic(auto)]

mod commands;
mod forms;
mod help;
mod reading;
mod task;

pub use reading::task_of;
pub use task::{ArgsFault, Shown, Task};
