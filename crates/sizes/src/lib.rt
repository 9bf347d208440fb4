// How many nodes, declarations and links a kernel holds: the code's side of specs/Sizes.antt.

#![tactic(auto)]

pub const IDENTITIES: usize = 64;

pub const DECLARATIONS: usize = 256;

pub const LINKS: usize = 512;

// The longest drain: three commands for each identity.
pub const STEPS: usize = 192;
