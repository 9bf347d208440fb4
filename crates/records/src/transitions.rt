// A component's node written anew, by the command that writes it.
ghost use Rattle.std.specs.Prelude.{◌≡◌};
ghost use Rattle.model.specs.Records.{absent_node, restored_node, restoring_node, retired_node, started_node};

use model::{Node, Phase};

// Loading, in this generation.
pub fn started_node(generation: u64, node: Node) -> Node
    ensures { result ≡ started_node generation node }
{
    Node {
        phase: Phase::Loading,
        generation,
        ..node
    }
}

pub fn retired_node(node: Node) -> Node
    ensures { result ≡ retired_node node }
{
    Node {
        retired: true,
        ..node
    }
}

pub fn restoring_node(node: Node) -> Node
    ensures { result ≡ restoring_node node }
{
    Node {
        restoring: true,
        ..node
    }
}

// Inactive and not restoring.
pub fn restored_node(node: Node) -> Node
    ensures { result ≡ restored_node node }
{
    Node {
        phase: Phase::Inactive,
        restoring: false,
        ..node
    }
}

pub fn absent_node(node: Node) -> Node
    ensures { result ≡ absent_node node }
{
    Node {
        present: false,
        ..node
    }
}
