// How many instructions an expression will have, before any of it is written.
#![tactic(auto)]

pub mod measurer; // measurer.rt: what a measure reads
pub mod calls; // calls.rt: whether a call by name loads a value
pub mod values; // values.rt: expressions

// How many instructions a part has, and the position after it.
#[derive(Clone, Copy)]
pub struct Measure {
    pub size: u32,
    pub next: usize,
}
