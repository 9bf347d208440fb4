// The tests of the component's node, and what they name.
ghost use Rattle.std.specs.Prelude.{◌≡◌};
ghost use Rattle.explain.specs.Explanations.{tables_in};
ghost use Rattle.explain.specs.Nodes.{Told, node_refusal};
ghost use Rattle.model.specs.Tables.{node_at};

use crate::answers::refusal;
use crate::entry::Sound;
use model::{Error, Measure, Measured, Node, Place, Refusal, Witness};

// The numbers, in its place, of a row's tests of the state and of the retirement.
#[derive(Clone, Copy)]
pub(crate) struct Numbers {
    pub(crate) state: usize,
    pub(crate) retired: usize,
}

// The state first, or one of the two alone.
pub(crate) const STATE_FIRST: Numbers = Numbers {
    state: 1,
    retired: 2,
};

// The retirement first.
pub(crate) const RETIRED_FIRST: Numbers = Numbers {
    state: 2,
    retired: 1,
};

// The test of the node that gave this refusal: 9 is begin's of the generation, and what is left the retirement's.
fn refusal_of(error: Error, place: Place, numbers: Numbers, id: usize, node: Node) -> Refusal
    ensures { result ≡ node_refusal place numbers id node error }
{
    let component = Witness::Component(id);
    let last = Witness::Number(Measured {
        measure: Measure::Generation,
        number: node.generation,
    });
    let (place, test, witness) = match error {
        Error::Unknown => (Place::Identity, 1, component),
        Error::Capacity => (place, 3, last),
        Error::InvalidState => (place, numbers.state, component),
        _ => (place, numbers.retired, component),
    };
    refusal(error, place, test, witness)
}

// The tests of a row that its check makes of the component's node.
pub(crate) fn tested<F: Fn(Node) -> Result<(), Error>>(
    sound: Sound,
    id: usize,
    check: F,
    place: Place,
    numbers: Numbers,
) -> Result<(), Refusal>
    requires { F.IsAlwaysCallable check }
    ensures { Told (F.post check) place numbers id (node_at (tables_in sound.entry.kernel.now).nodes id) result }
{
    let node = sound.node(id);
    check(node).map_err(|error| refusal_of(error, place, numbers, id, node))
}
