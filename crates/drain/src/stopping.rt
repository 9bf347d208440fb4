// The tables, read and written for the drain as a whole.
ghost use Rattle.std.specs.Prelude.{◌≡◌, ◌≤◌, length, map};
ghost use Rattle.drain.specs.Drains.{flags_of};
ghost use Rattle.drain.specs.Order.{held};
ghost use Rattle.model.specs.Records.{dead_link, restored_node};
ghost use Rattle.sizes.specs.Sizes.{IDENTITIES};

use model::{Link, Node, Phase};
use sizes::IDENTITIES;

// Which components must leave, which are restoring, and which are serving.
#[derive(Clone, Copy)]
pub(crate) struct Flags {
    pub leaving: [bool; IDENTITIES],
    pub restoring: [bool; IDENTITIES],
    pub serving: [bool; IDENTITIES],
}

// One pass over the nodes. Their array's length is known here, and not where they are a field behind a reference: hence the second clause.
#[tactic(auto, using(scans::proofs::Slices::fill_start, scans::proofs::Slices::fill_next, scans::proofs::Slices::fill_end))]
pub(crate) fn flags_of(nodes: &[Node; IDENTITIES]) -> Flags
    ensures flags { result ≡ flags_of nodes.now }
    ensures sized { length nodes.now ≡ IDENTITIES }
{
    let mut leaving = [false; IDENTITIES];
    let mut restoring = [false; IDENTITIES];
    let mut serving = [false; IDENTITIES];
    for (i, node) in nodes.iter().enumerate() {
        leaving[i] = records::must_leave(*node);
        restoring[i] = records::is_restoring(*node);
        serving[i] = records::is_serving(*node);
    }
    Flags {
        leaving,
        restoring,
        serving,
    }
}

// How many components these are.
#[tactic(auto, using(crate::proofs::Laws::Order::held_more))]
pub(crate) fn count(flags: &[bool; IDENTITIES]) -> usize
    ensures held { result ≡ held flags.now }
    ensures most { result ≤ IDENTITIES }
{
    let mut count = 0;
    for flag in flags {
        count += usize::from(*flag);
    }
    count
}

// Every node Inactive and not restoring.
#[tactic(auto, using(crate::proofs::Laws::Edits::in_place))]
pub(crate) fn restore_nodes(nodes: &mut [Node])
    ensures { nodes.new ≡ map restored_node nodes.old }
{
    for node in nodes.iter_mut() {
        node.phase = Phase::Inactive;
        node.restoring = false;
    }
}

// Every link dead.
#[tactic(auto, using(crate::proofs::Laws::Edits::in_place))]
pub(crate) fn kill_links(links: &mut [Link])
    ensures { links.new ≡ map dead_link links.old }
{
    for link in links.iter_mut() {
        link.live = false;
    }
}
