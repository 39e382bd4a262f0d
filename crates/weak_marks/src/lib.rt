//! The marks that a weak write leaves on a replica while its elements are done one by one.
#![tactic(auto)]

mod marks;

pub use marks::{Marked, Marks};
