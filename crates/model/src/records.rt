// The stored records: an identity takes one byte, and the fields stand so that none is wasted between them. How they are read, made and tested is said in
// specs/Records, and done by the crate records; callers pass and receive identities at full width.
use crate::{Phase, Port};

// A parent as a node stores it.
#[derive(Clone, Copy)]
pub enum StoredParent {
    None,
    Of(u8),
}

#[derive(Clone, Copy)]
pub struct Node {
    pub present: bool,
    pub retired: bool,
    pub phase: Phase,
    pub restoring: bool,
    pub parent: StoredParent,
    pub generation: u64,
}

// provides: yes for a provision, no for a dependency.
#[derive(Clone, Copy)]
pub struct Declaration {
    pub port: Port,
    pub owner: u8,
    pub provides: bool,
}

// generation: the provider's at the begin that made the link.
#[derive(Clone, Copy)]
pub struct Link {
    pub key: u64,
    pub realm: u64,
    pub generation: u64,
    pub consumer: u8,
    pub provider: u8,
    pub live: bool,
}
