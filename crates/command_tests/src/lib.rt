//! The tests of a command: a user of command_run, over streams in memory.
#![tactic(auto)]

#[cfg(test)]
mod commands;
#[cfg(test)]
mod copying;
#[cfg(test)]
mod failing;
#[cfg(test)]
mod pieces;
#[cfg(test)]
mod played;
#[cfg(test)]
mod rows;
#[cfg(test)]
mod words;
#[cfg(test)]
mod worlds;
