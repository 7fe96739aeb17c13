//! The requests in flight: what each was begun with, the nodes that it pins, and what it may still add.
#![tactic(auto)]

mod data;
mod held_paths;
mod listed;
mod names;
mod pin_counts;
mod request_maps;

pub use data::{
    Case, EndedRequest, Given, Givens, Handle, Pins, Promise, RequestInFlight, Stage, Want, Work,
};
pub use names::Names;
pub use request_maps::RequestsInFlight;
