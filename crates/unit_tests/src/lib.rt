//! The tests of the libraries: each public call at work, and what no clause says, as printed text.
#![tactic(auto)]

#[cfg(test)]
mod cluster;
#[cfg(test)]
mod dispatches;
#[cfg(test)]
mod drivers;
#[cfg(test)]
mod handles;
#[cfg(test)]
mod journals;
#[cfg(test)]
mod labels;
#[cfg(test)]
mod loads;
#[cfg(test)]
mod names;
#[cfg(test)]
mod regions;
#[cfg(test)]
mod replicas;
#[cfg(test)]
mod rows;
#[cfg(test)]
mod same;
#[cfg(test)]
mod scripts;
#[cfg(test)]
mod store;
#[cfg(test)]
mod streams;
#[cfg(test)]
mod tickets;
#[cfg(test)]
mod trails;
#[cfg(test)]
mod types;
#[cfg(test)]
mod words;
#[cfg(test)]
mod works;
