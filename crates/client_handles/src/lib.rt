//! What one client keeps: its open handles, the iterations over them, and the places that stand for both.
#![tactic(auto)]

mod begun;
mod client;
mod handle_view;
mod kept;

pub use client::Client;
pub use handle_view::HandleView;
