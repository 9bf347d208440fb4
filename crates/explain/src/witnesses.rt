// The first record of a table that is in the way, in one pass that stops there.
#![tactic(auto, using(crate::proofs::Laws::Found::searching), unfolding(model::specs::Lifecycle::relies))]

ghost use Rattle.std.specs.Prelude.{◌≡◌};
ghost use Rattle.explain.specs.Explanations.{found_if};
ghost use Rattle.model.specs.Explanation.{child_named, link_named};
ghost use Rattle.model.specs.Explanation.{link_at as link_at_place};
ghost use Rattle.model.specs.Interface.{relies_on};
ghost use Rattle.model.specs.Lifecycle.{relies};
ghost use Rattle.model.specs.Lists.{any};
ghost use Rattle.model.specs.Records.{is_child_of};

use model::{Link, LinkAt, Node, Port, Witness};

fn link_at(place: usize, link: Link) -> Witness
    ensures { result ≡ link_at_place place link }
{
    Witness::Link(LinkAt {
        place,
        consumer: records::consumer_in(link),
        binding: records::binding_in(link),
    })
}

// The first live link with this provider and port.
pub(crate) fn link_of_port(links: &[Link], id: usize, port: Port) -> Option<Witness>
    ensures { result ≡ found_if (any (relies_on id port) links.now) (link_named (relies_on id port) links.now) }
{
    for (place, link) in links.iter().enumerate() {
        if records::relies_on(id, port, *link) {
            return Some(link_at(place, *link));
        }
    }
    None
}

// The first live link with this provider.
pub(crate) fn link_of(links: &[Link], id: usize) -> Option<Witness>
    ensures { result ≡ found_if (any (relies id) links.now) (link_named (relies id) links.now) }
{
    for (place, link) in links.iter().enumerate() {
        if link.live && records::provider_in(*link) == id {
            return Some(link_at(place, *link));
        }
    }
    None
}

// The lowest present child.
pub(crate) fn child_of(nodes: &[Node], id: usize) -> Option<Witness>
    ensures { result ≡ found_if (any (is_child_of id) nodes.now) (child_named id nodes.now) }
{
    for (child, node) in nodes.iter().enumerate() {
        if records::is_child_of(id, *node) {
            return Some(Witness::Child(child));
        }
    }
    None
}
