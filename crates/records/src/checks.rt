// What a command tests of its component's node, in the order of its row, and what update_node tests of a link.
ghost use Rattle.std.specs.Prelude.{◌≡◌, [], ◌∷◌};
ghost use Rattle.model.specs.Answers.{checked};
ghost use Rattle.model.specs.Interface.{declare_node_tests, configure_node_tests};
ghost use Rattle.model.specs.Lifecycle.{begin_node_tests, loading_tests, running_tests, unloading_tests, restoring_tests, retired_tests};
ghost use Rattle.model.specs.Interface.{present_tests};
ghost use Rattle.model.specs.UpdateNode.{blocks};

use model::{Error, Link, Node, Phase};

// One test: the refusal, if it applies.
#[tactic(auto, unfolding(model::specs::Refusals::first))]
pub fn refuse_if(applies: bool, error: Error) -> Result<(), Error>
    ensures { result ≡ checked ((applies, error) ∷ []) }
{
    if applies { Err(error) } else { Ok(()) }
}

// release_provision and retire: present.
pub fn check_present(node: Node) -> Result<(), Error>
    ensures { result ≡ checked (present_tests node) }
{
    refuse_if(!node.present, Error::Unknown)
}

// declare_provision: present, not retired, and Loading, Active or never begun.
#[tactic(auto, unfolding(model::specs::Refusals::first))]
pub fn check_declare(node: Node) -> Result<(), Error>
    ensures { result ≡ checked (declare_node_tests node) }
{
    refuse_if(!node.present, Error::Unknown)?;
    refuse_if(node.retired, Error::Retired)?;
    let open = crate::is_running(node.phase) | crate::is_pending(node);
    refuse_if(!open, Error::InvalidState)
}

// configure_pending_dependencies: present, not retired, and never begun.
#[tactic(auto, unfolding(model::specs::Refusals::first))]
pub fn check_configure(node: Node) -> Result<(), Error>
    ensures { result ≡ checked (configure_node_tests node) }
{
    refuse_if(!node.present, Error::Unknown)?;
    refuse_if(node.retired, Error::Retired)?;
    refuse_if(!crate::is_pending(node), Error::InvalidState)
}

// begin: present, Inactive, not retired, and with a next generation.
#[tactic(auto, unfolding(model::specs::Refusals::first))]
pub fn check_begin(node: Node) -> Result<(), Error>
    ensures { result ≡ checked (begin_node_tests node) }
{
    refuse_if(!node.present, Error::Unknown)?;
    refuse_if(node.phase != Phase::Inactive, Error::InvalidState)?;
    refuse_if(node.retired, Error::Retired)?;
    refuse_if(node.generation == u64::MAX, Error::Capacity)
}

// check_iteration and finish: present and Loading.
#[tactic(auto, unfolding(model::specs::Refusals::first))]
pub fn check_loading(node: Node) -> Result<(), Error>
    ensures { result ≡ checked (loading_tests node) }
{
    refuse_if(!node.present, Error::Unknown)?;
    refuse_if(node.phase != Phase::Loading, Error::InvalidState)
}

// leave and leave_if_changed: present, and Loading or Active.
#[tactic(auto, unfolding(model::specs::Refusals::first))]
pub fn check_running(node: Node) -> Result<(), Error>
    ensures { result ≡ checked (running_tests node) }
{
    refuse_if(!node.present, Error::Unknown)?;
    refuse_if(!crate::is_running(node.phase), Error::InvalidState)
}

// begin_cleanup: present, Unloading, and not restoring.
#[tactic(auto, unfolding(model::specs::Refusals::first))]
pub fn check_unloading(node: Node) -> Result<(), Error>
    ensures { result ≡ checked (unloading_tests node) }
{
    refuse_if(!node.present, Error::Unknown)?;
    refuse_if(
        !((node.phase == Phase::Unloading) & !node.restoring),
        Error::InvalidState,
    )
}

// finish_cleanup: present and restoring.
#[tactic(auto, unfolding(model::specs::Refusals::first))]
pub fn check_restoring(node: Node) -> Result<(), Error>
    ensures { result ≡ checked (restoring_tests node) }
{
    refuse_if(!node.present, Error::Unknown)?;
    refuse_if(!node.restoring, Error::InvalidState)
}

// remove: present, retired and Inactive.
#[tactic(auto, unfolding(model::specs::Refusals::first))]
pub fn check_retired(node: Node) -> Result<(), Error>
    ensures { result ≡ checked (retired_tests node) }
{
    refuse_if(!node.present, Error::Unknown)?;
    refuse_if(
        !(node.retired & (node.phase == Phase::Inactive)),
        Error::InvalidState,
    )
}

// update_node: whether this node, written for this identity, would leave a live link without its consumer or its provider.
#[tactic(auto, unfolding(model::specs::UpdateNode::blocks))]
pub fn blocks(id: usize, node: Node, link: Link) -> bool
    ensures { result ≡ blocks id node link }
{
    let idle = !node.present | (node.phase == Phase::Inactive);
    let consumes = (crate::consumer_in(link) == id) & idle;
    let serves = (crate::provider_in(link) == id) & (idle | node.restoring);
    link.live & (consumes | serves)
}
