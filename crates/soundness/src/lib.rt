// The entry test of every command and check: whether a kernel's tables are sound, in one pass over each.
#![tactic(auto)]

ghost use Rattle.std.specs.Prelude.{◌≡◌};
ghost use Rattle.model.specs.Layouts.{sound_kernel};
ghost use Rattle.sizes.specs.Sizes.{sizes};

use crate::chains::Chains;
use crate::declarations::declarations_ok;
use crate::links::links_ok;
use crate::nodes::nodes_ok;
use model::{Declaration, Link, Node};
use sizes::{DECLARATIONS, IDENTITIES, LINKS};

mod chains;
mod declarations;
mod links;
mod nodes;

// Whether the kernel of these tables and counts is sound. It takes the tables and their counts: the type of a kernel is above this crate.
pub fn tables_sound(
    nodes: &[Node; IDENTITIES],
    n: usize,
    declarations: &[Declaration; DECLARATIONS],
    d: usize,
    links: &[Link; LINKS],
    l: usize,
) -> bool
    ensures { result ≡ sound_kernel sizes (record { nodes = nodes.now; node_count = n; declarations = declarations.now; declaration_count = d; links = links.now; link_count = l }) }
{
    if n > IDENTITIES || d > DECLARATIONS || l > LINKS {
        return false;
    }
    let (nodes, unused_nodes) = nodes.split_at(n);
    let (declarations, unused_declarations) = declarations.split_at(d);
    let (links, unused_links) = links.split_at(l);
    let chains = Chains::of(declarations);
    nodes_ok(nodes, unused_nodes)
        && declarations_ok(&chains, unused_declarations, nodes)
        && links_ok(links, unused_links, &chains, nodes)
}
