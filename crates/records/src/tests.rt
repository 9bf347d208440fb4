// Tests on one parent, one node, one declaration or one link.
ghost use Rattle.std.specs.Prelude.{◌≡◌};
ghost use Rattle.model.specs.Drain.{is_restoring, must_leave};
ghost use Rattle.model.specs.Interface.{relies_on};
ghost use Rattle.model.specs.Records.{has_parent, is_child_of, is_consistent, is_installed, is_pending, is_providing, is_serving, no_parent};
ghost use Rattle.model.specs.Resolution.{is_dependency_of, is_live_link_of};
ghost use Rattle.model.specs.Soundness.{is_declaration, links_to};

use model::{Declaration, Link, Node, Parent, Phase, Port};

pub fn no_parent(parent: Parent) -> bool
    ensures { result ≡ no_parent parent }
{
    parent == Parent::None
}

pub fn has_parent(id: usize, parent: Parent) -> bool
    ensures { result ≡ has_parent id parent }
{
    parent == Parent::Of(id)
}

// Never begun: Inactive with generation 0.
pub fn is_pending(node: Node) -> bool
    ensures { result ≡ is_pending node }
{
    (node.phase == Phase::Inactive) & (node.generation == 0)
}

// An absent node is Inactive and not restoring; a restoring node is present and Unloading.
pub fn is_consistent(node: Node) -> bool
    ensures { result ≡ is_consistent node }
{
    let inactive = node.phase == Phase::Inactive;
    let unloading = node.phase == Phase::Unloading;
    let absent = (node.present | inactive) & (node.present | !node.restoring);
    absent & (!node.restoring | node.present) & (!node.restoring | unloading)
}

// Present, and a child of this identity.
pub fn is_child_of(id: usize, node: Node) -> bool
    ensures { result ≡ is_child_of id node }
{
    node.present & has_parent(id, crate::parent_in(node))
}

// Present and not Inactive.
pub fn is_installed(node: Node) -> bool
    ensures { result ≡ is_installed node }
{
    node.present & (node.phase != Phase::Inactive)
}

// Installed and not restoring: it may be a live link's provider.
pub fn is_serving(node: Node) -> bool
    ensures { result ≡ is_serving node }
{
    is_installed(node) & !node.restoring
}

// Present and Loading or Active: a drain makes it leave.
pub fn must_leave(node: Node) -> bool
    ensures { result ≡ must_leave node }
{
    node.present & crate::is_running(node.phase)
}

// Installed and restoring.
pub fn is_restoring(node: Node) -> bool
    ensures { result ≡ is_restoring node }
{
    is_installed(node) & node.restoring
}

// Present and Active: resolve may find it.
pub fn is_providing(node: Node) -> bool
    ensures { result ≡ is_providing node }
{
    node.present & (node.phase == Phase::Active)
}

// A declaration of this owner and port, a provision or a dependency.
#[tactic(auto, unfolding(model::specs::Soundness::is_declaration))]
pub fn is_declaration(owner: usize, port: Port, provides: bool, declaration: Declaration) -> bool
    ensures { result ≡ is_declaration owner port provides declaration }
{
    (crate::owner_in(declaration) == owner)
        & (crate::declared_port(declaration) == port)
        & (declaration.provides == provides)
}

// A dependency of this component.
#[tactic(auto, unfolding(model::specs::Resolution::is_dependency_of))]
pub fn is_dependency_of(id: usize, declaration: Declaration) -> bool
    ensures { result ≡ is_dependency_of id declaration }
{
    !declaration.provides & (crate::owner_in(declaration) == id)
}

// A live link of this consumer.
#[tactic(auto, unfolding(model::specs::Resolution::is_live_link_of))]
pub fn is_live_link_of(id: usize, link: Link) -> bool
    ensures { result ≡ is_live_link_of id link }
{
    link.live & (crate::consumer_in(link) == id)
}

// A live link of this consumer with this port.
#[tactic(auto, unfolding(model::specs::Soundness::links_to))]
pub fn links_to(consumer: usize, port: Port, link: Link) -> bool
    ensures { result ≡ links_to consumer port link }
{
    link.live & (crate::consumer_in(link) == consumer) & (crate::port_in(link) == port)
}

// A live link with this provider and port.
#[tactic(auto, unfolding(model::specs::Interface::relies_on))]
pub fn relies_on(id: usize, port: Port, link: Link) -> bool
    ensures { result ≡ relies_on id port link }
{
    link.live & (crate::provider_in(link) == id) & (crate::port_in(link) == port)
}
