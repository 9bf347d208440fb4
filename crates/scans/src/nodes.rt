// The node table: what is asked of each node, and of an identity.
ghost use Rattle.std.specs.Prelude.{◌≡◌, map};
ghost use Rattle.model.specs.Lists.{any, places};
ghost use Rattle.model.specs.Records.{is_child_of};
ghost use Rattle.model.specs.Soundness.{parent_ok};
ghost use Rattle.results.specs.Results.{identities};
ghost use Rattle.scans.specs.Flags.{flags_of};

use crate::NodeFlags;
use model::{Node, Parent};
use results::Identities;
use sizes::IDENTITIES;

// Which nodes are present, and which are present and Active.
#[tactic(auto, using(crate::proofs::Slices::fill_start, crate::proofs::Slices::fill_next, crate::proofs::Slices::fill_end))]
pub fn node_flags(nodes: &[Node; IDENTITIES]) -> NodeFlags
    ensures { result ≡ flags_of nodes.now }
{
    let mut present = [false; IDENTITIES];
    let mut providing = [false; IDENTITIES];
    for (i, node) in nodes.iter().enumerate() {
        present[i] = node.present;
        providing[i] = records::is_providing(*node);
    }
    NodeFlags { present, providing }
}

// Which nodes are present and have this parent.
#[tactic(auto, using(crate::proofs::Slices::fill_start, crate::proofs::Slices::fill_next, crate::proofs::Slices::fill_end))]
pub fn child_flags(nodes: &[Node; IDENTITIES], parent: usize) -> [bool; IDENTITIES]
    ensures { result ≡ map (is_child_of parent) nodes.now }
{
    let mut flags = [false; IDENTITIES];
    for (i, node) in nodes.iter().enumerate() {
        flags[i] = records::is_child_of(parent, *node);
    }
    flags
}

// The identities whose yes/no is yes, ascending.
pub fn places_of(flags: &[bool; IDENTITIES]) -> Identities
    ensures { result ≡ identities (places (λ b. b) 0 flags.now) }
{
    let mut ids = [0usize; IDENTITIES];
    let mut count = 0;
    for (i, flag) in flags.iter().enumerate() {
        if *flag {
            ids[count] = i;
            count += 1;
        }
    }
    Identities { ids, count }
}

// Whether a present node has this parent.
pub fn has_child(nodes: &[Node], id: usize) -> bool
    ensures { result ≡ any (is_child_of id) nodes.now }
{
    nodes.iter().any(|node| records::is_child_of(id, *node))
}

// Whether a parent, if any, is present and smaller than this identity.
#[tactic(auto, unfolding(model::specs::Soundness::parent_ok, model::specs::Tables::node_at))]
pub fn parent_ok(nodes: &[Node], id: usize, parent: Parent) -> bool
    ensures { result ≡ parent_ok nodes.now id parent }
{
    match parent {
        Parent::None => true,
        Parent::Of(p) => p < id && p < nodes.len() && nodes[p].present,
    }
}

#[cfg(test)]
mod tests {
    use crate::has_child;
    use model::{Node, Parent};
    use sizes::IDENTITIES;

    // No node; a child; an absent one, another parent's and one without a parent; a child behind these; a child behind as many as a table holds.
    #[test]
    fn present_children_of_this_parent(rt: HostRuntime) {
        let child = records::new_node(Parent::Of(2));
        let gone = Node {
            present: false,
            ..child
        };
        let others = records::new_node(Parent::Of(1));
        let root = records::new_node(Parent::None);
        assert!(rt; !has_child(&[], 2));
        assert!(rt; has_child(&[child], 2));
        assert!(rt; !has_child(&[gone, others, root], 2));
        assert!(rt; has_child(&[gone, others, root, child], 2));
        let mut many = [others; IDENTITIES + 1];
        many[IDENTITIES] = child;
        assert!(rt; has_child(&many, 2));
    }
}
