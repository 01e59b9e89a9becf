//! Tests of the engine by its public calls: a store, the shell over it, and readers beside a writer.
//!
//! What a line can ask of a store stands in the scripts of tests/, which `pk_player` plays, and what a
//! command line can in tools/commands_test.py. Here is what neither can say: commands as values, a
//! reader that fails, a disk that lies, a file that changes in the course of a call.
#![tactic(auto)]

#[cfg(test)]
mod beside;
#[cfg(test)]
mod calls;
#[cfg(test)]
mod lying;
#[cfg(test)]
mod recorder;
#[cfg(test)]
mod serving;
#[cfg(test)]
mod session;
