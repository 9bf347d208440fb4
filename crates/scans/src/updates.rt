// update_node, and its tests of the nodes.
ghost use Rattle.std.specs.Prelude.{◌≡◌};
ghost use Rattle.model.specs.Answers.{checked};
ghost use Rattle.model.specs.Lists.{any};
ghost use Rattle.model.specs.UpdateNode.{blocks, update_node_tests, update_tests};
ghost use Rattle.scans.specs.Flags.{nodes_and_links};

use crate::nodes::{has_child, parent_ok};
use model::{Error, Link, Node};
use records::refuse_if;

// What update_node tests of the nodes.
#[tactic(auto, unfolding(model::specs::Refusals::first, model::specs::Tables::node_at))]
pub fn check_update(nodes: &[Node], id: usize, node: Node) -> Result<(), Error>
    ensures { result ≡ checked (update_node_tests nodes.now id node) }
{
    refuse_if(nodes.len() <= id || !nodes[id].present, Error::Unknown)?;
    refuse_if(!records::is_consistent(node), Error::InvalidState)?;
    let lost = node.present && !parent_ok(nodes, id, records::parent_in(node));
    refuse_if(lost, Error::Unknown)?;
    refuse_if(!node.present && has_child(nodes, id), Error::Children)
}

// Whether a live link would be left without a consumer or a provider.
fn blocked(links: &[Link], id: usize, node: Node) -> bool
    ensures { result ≡ any (blocks id node) links.now }
{
    links.iter().any(|l| records::checks::blocks(id, node, *l))
}

// update_node: whether this node may be written for this identity. It answers only; the command that asks stores the node.
#[tactic(auto, unfolding(model::specs::Refusals::first))]
pub fn update_node(nodes: &[Node], links: &[Link], id: usize, node: Node) -> Result<(), Error>
    ensures { result ≡ checked (update_tests (nodes_and_links nodes.now links.now) id node) }
{
    check_update(nodes, id, node)?;
    refuse_if(blocked(links, id, node), Error::Relied)
}
