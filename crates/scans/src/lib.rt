// What is read off a kernel's tables. A table is lent: its entries below the count as a slice, or the nodes as a whole array.
#![tactic(auto)]

ghost use Rattle.std.specs.Prelude.{◌≡◌};
ghost use Rattle.loops.specs.Columns.{flag};
ghost use Rattle.sizes.specs.Sizes.{IDENTITIES};

use sizes::IDENTITIES;

pub mod declarations;
mod nodes;
mod resolution;
mod updates;

pub use declarations::{check_provisions, declares_in, relies_on, remaining_in, taken_in};
pub use nodes::{child_flags, has_child, node_flags, places_of};
pub use resolution::{committed_in, link_generation_in, resolve_table, target_table};
pub use updates::update_node;

// Of each identity: whether its node is present, and whether it is present and Active.
#[derive(Clone, Copy)]
pub struct NodeFlags {
    pub present: [bool; IDENTITIES],
    pub providing: [bool; IDENTITIES],
}

// The yes/no of an identity; no past the last.
pub fn flag_at(flags: &[bool; IDENTITIES], id: usize) -> bool
    ensures { result ≡ flag IDENTITIES flags.now id }
{
    id < IDENTITIES && flags[id]
}
