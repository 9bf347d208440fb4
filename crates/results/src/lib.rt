// What ids, children, target and committed return: lists in arrays with a count.
#![tactic(auto)]

use model::Binding;
use sizes::{DECLARATIONS, IDENTITIES, LINKS};

// Identities in order, and how many; 0 past the count.
#[derive(Clone, Copy)]
pub struct Identities {
    pub ids: [usize; IDENTITIES],
    pub count: usize,
}

// The bindings of a target and how many, blank past the count. target answers Result<TargetBindings, Option<Unresolved>>: where there is none, the first
// dependency that is missing, if that is why.
#[derive(Clone, Copy)]
pub struct TargetBindings {
    pub bindings: [Binding; DECLARATIONS],
    pub count: usize,
}

// The bindings of a consumer's live links and how many, blank past the count.
#[derive(Clone, Copy)]
pub struct CommittedBindings {
    pub bindings: [Binding; LINKS],
    pub count: usize,
}
