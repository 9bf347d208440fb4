// The node table: whether it is sound.
ghost use Rattle.std.specs.Prelude.{◌≡◌, ◌<◌, ◌&&◌, length};
ghost use Rattle.model.specs.Lists.{all, all_at};
ghost use Rattle.model.specs.Records.{is_blank_node};
ghost use Rattle.loops.specs.Passes.{node_passes, parent_passes};

use model::{Node, Parent};

// Whether the parent of this identity's node, if any, is smaller, and present where the node is.
#[tactic(auto, unfolding(model::specs::Tables::node_at))]
fn parent_passes(nodes: &[Node], id: usize, present: bool, parent: Parent) -> bool
    requires { id < length nodes.now }
    ensures { result ≡ parent_passes nodes.now id present parent }
{
    match parent {
        Parent::None => true,
        Parent::Of(p) => p < id && (!present || nodes[p].present),
    }
}

// Whether a node is consistent, and its parent passes.
#[tactic(auto, using(loops::proofs::Laws::Passes::node_asks))]
fn node_passes(nodes: &[Node], id: usize, node: Node) -> bool
    requires { id < length nodes.now }
    ensures { result ≡ node_passes nodes.now id node }
{
    records::is_consistent(node) & parent_passes(nodes, id, node.present, records::parent_in(node))
}

// Whether each node passes.
#[tactic(auto, using(loops::proofs::Laws::Passes::all_at_next, loops::proofs::Laws::Passes::all_at_hit, loops::proofs::Laws::Passes::all_at_end))]
fn each_passes(nodes: &[Node]) -> bool
    ensures { result ≡ all_at (node_passes nodes.now) 0 nodes.now }
{
    for (id, node) in nodes.iter().enumerate() {
        if !node_passes(nodes, id, *node) {
            return false;
        }
    }
    true
}

// Whether each of these nodes is blank.
fn are_blank(nodes: &[Node]) -> bool
    ensures { result ≡ all is_blank_node nodes.now }
{
    nodes.iter().all(|node| records::is_blank_node(*node))
}

// Whether each node passes, and the places behind are blank.
pub(crate) fn nodes_ok(nodes: &[Node], unused: &[Node]) -> bool
    ensures { result ≡ all_at (node_passes nodes.now) 0 nodes.now && all is_blank_node unused.now }
{
    each_passes(nodes) && are_blank(unused)
}
