// What callers see of the lifecycle kernel: phases, ports, bindings, refusals and answers; and the stored records. The functions here are the types' own:
// equality, conversion, printing.
#![tactic(auto)]

mod converted;
pub mod explanation;
pub mod records;
mod shown;

pub use explanation::{LinkAt, ListKind, Measure, Measured, Place, Refusal, Repeat, Witness};
pub use records::{Declaration, Link, Node, StoredParent};

#[derive(Clone, Copy, PartialEq, Eq)]
pub enum Phase {
    Inactive,
    Loading,
    Active,
    Unloading,
}

// No parent, or the parent's identity.
#[derive(Clone, Copy, PartialEq, Eq)]
pub enum Parent {
    None,
    Of(usize),
}

#[derive(Clone, Copy, PartialEq, Eq)]
pub struct Port {
    pub key: u64,
    pub realm: u64,
}

#[derive(Clone, Copy, PartialEq, Eq)]
pub struct Binding {
    pub key: u64,
    pub realm: u64,
    pub provider: usize,
}

// The kinds of refusal, with their numbers in the rules: the nine of lib.rs, in its order, and Damaged for an unsound kernel. A command or a check answers
// Result<(), Error>, and insert Result<usize, Error>, with the new identity.
#[derive(Clone, Copy, PartialEq, Eq)]
pub enum Error {
    Unknown = 1,
    InvalidState,
    Retired,
    MissingDependency,
    Conflict,
    Changed,
    Relied,
    Children,
    Capacity,
    Damaged,
}

// The ports below the count; those past it are ignored. A count over 32 is a list that is too long.
#[derive(Clone, Copy, PartialEq, Eq)]
pub struct PortList {
    pub ports: [Port; 32],
    pub count: usize,
}

// What resolve answers: the Active provider; a present owner that provides the port but is not Active; no present owner.
#[derive(Clone, Copy)]
pub enum Resolution {
    Provider(usize),
    NotActive(usize),
    NoOwner,
}

// A dependency that did not resolve: its port, and what looking it up answered.
#[derive(Clone, Copy)]
pub struct Unresolved {
    pub port: Port,
    pub found: Resolution,
}

// The commands that a drain is made of.
#[derive(Clone, Copy)]
pub enum StepCommand {
    Leave,
    BeginCleanup,
    FinishCleanup,
}

// A step of a drain: a command, and the identity that it names.
#[derive(Clone, Copy)]
pub struct Step {
    pub command: StepCommand,
    pub id: usize,
}
