// The lifecycle kernel: its value, and a file of methods for each part of it.
#![tactic(auto)]

use model::{Declaration, Error, Link, Node};
use sizes::{DECLARATIONS, IDENTITIES, LINKS};

mod cleanup;
mod compaction;
mod component;
mod insertion;
mod interface;
mod lifecycle;
mod observers;
mod ports;
mod resolution;
mod sound;

// Three tables, each with a count; an entry at or past its count is blank. A caller may pass any value.
#[derive(Clone, Copy)]
pub struct Kernel {
    pub nodes: [Node; IDENTITIES],
    pub node_count: usize,
    pub declarations: [Declaration; DECLARATIONS],
    pub declaration_count: usize,
    pub links: [Link; LINKS],
    pub link_count: usize,
}

// What a command hands back: the kernel, and what it answers: done, with insert's identity or the count that a compaction removed, or a refusal.
#[derive(Clone, Copy)]
pub struct Outcome<T> {
    pub kernel: Kernel,
    pub answer: Result<T, Error>,
}
