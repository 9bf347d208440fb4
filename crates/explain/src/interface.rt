// The rows of the interface commands.
#![tactic(auto, using(crate::proofs::Laws::Entry::kept, crate::proofs::Laws::Scans::naming), unfolding(model::specs::Explanation::explained, model::specs::Explanation::explain, model::specs::Refusals::first))]

ghost use Rattle.std.specs.Prelude.{◌≡◌};
ghost use Rattle.explain.specs.Explanations.{tables_in};
ghost use Rattle.model.specs.Commands.{Command};
ghost use Rattle.model.specs.Explanation.{explained};
ghost use Rattle.sizes.specs.Sizes.{sizes};

use crate::answers::{number_if, refused_if};
use crate::clashes::{owner_of, repeat_in};
use crate::entry::Sound;
use crate::nodes::{RETIRED_FIRST, STATE_FIRST, tested};
use crate::witnesses::link_of_port;
use model::{Error, Measure, Place, Port, PortList, Refusal};
use records::checks::{check_configure, check_declare, check_present};
use sizes::DECLARATIONS;

// declare_provision.
pub(crate) fn declare_provision(sound: Sound, id: usize, port: Port) -> Result<(), Refusal>
    ensures { result ≡ explained sizes (tables_in sound.entry.kernel.now) (Command.declare_provision id port) }
{
    let place = Place::DeclareProvision;
    tested(sound, id, check_declare, place, RETIRED_FIRST)?;
    let declarations = sound.declarations();
    if scans::declares_in(declarations, id, port, true) {
        return Ok(());
    }
    refused_if(Error::Conflict, place, 3, owner_of(sound, port))?;
    let count = declarations.len();
    let full = number_if(DECLARATIONS <= count, Measure::DeclarationCount, count);
    refused_if(Error::Capacity, place, 4, full)
}

// release_provision.
pub(crate) fn release_provision(sound: Sound, id: usize, port: Port) -> Result<(), Refusal>
    ensures { result ≡ explained sizes (tables_in sound.entry.kernel.now) (Command.release_provision id port) }
{
    let place = Place::ReleaseProvision;
    tested(sound, id, check_present, place, STATE_FIRST)?;
    let link = link_of_port(sound.links(), id, port);
    refused_if(Error::Relied, place, 1, link)
}

// configure_pending_dependencies.
pub(crate) fn configure(sound: Sound, id: usize, list: PortList) -> Result<(), Refusal>
    ensures { result ≡ explained sizes (tables_in sound.entry.kernel.now) (Command.configure_pending_dependencies id list) }
{
    let long = number_if(32 < list.count, Measure::DependencyCount, list.count);
    refused_if(Error::Capacity, Place::Lists, 1, long)?;
    let place = Place::ConfigurePendingDependencies;
    tested(sound, id, check_configure, place, RETIRED_FIRST)?;
    let sum = scans::remaining_in(sound.declarations(), id) + list.count;
    let over = number_if(DECLARATIONS < sum, Measure::DeclarationSum, sum);
    refused_if(Error::Capacity, place, 3, over)?;
    let repeat = repeat_in(&list.ports[..list.count]);
    refused_if(Error::Conflict, place, 4, repeat)
}
