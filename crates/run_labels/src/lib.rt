//! The labels of a run, the log that keeps them, and the lines that they print.
#![tactic(auto)]

mod callbacks;
mod digits;
mod events;
mod fronts;
mod labels;
mod lines;
mod log;
mod outcomes;
mod shown;
mod shows;
mod steps;
mod texts;
mod words;

pub use callbacks::{append_callbacks, render_callbacks};
pub use ckpt_types::OpWord;
pub use labels::{Label, PullReply, PutReply};
pub use lines::{append_line, render_line};
pub use log::RunLog;
pub use shown::{ShownReplica, ShownReplicas, ShownSection, ShownSections, ShownSlot};
pub use words::{LineWord, Said, verb_word};
