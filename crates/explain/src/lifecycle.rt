// The rows of the lifecycle.
#![tactic(auto, unfolding(model::specs::Explanation::explained, model::specs::Explanation::explain, model::specs::Refusals::first))]

ghost use Rattle.std.specs.Prelude.{IfOk, ◌≡◌, ◌≤◌};
ghost use Rattle.explain.specs.Explanations.{tables_in};
ghost use Rattle.explain.specs.Nodes.{lacked};
ghost use Rattle.model.specs.Commands.{Command};
ghost use Rattle.model.specs.Explanation.{explained};
ghost use Rattle.model.specs.Resolution.{target};
ghost use Rattle.results.specs.Results.{target_bindings};
ghost use Rattle.sizes.specs.Sizes.{DECLARATIONS, sizes};

use crate::answers::{number_if, refusal, refused_if};
use crate::entry::Sound;
use crate::nodes::{STATE_FIRST, tested};
use crate::witnesses::{child_of, link_of};
use model::{Error, Measure, Place, Refusal, Unresolved, Witness};
use records::checks::{
    check_begin, check_loading, check_present, check_restoring, check_retired, check_running,
    check_unloading,
};
use results::TargetBindings;
use sizes::LINKS;

// The dependency that is missing, or only the component.
fn lacking(id: usize, missing: Option<Unresolved>) -> Witness
    ensures { result ≡ lacked id missing }
{
    missing.map_or(Witness::Component(id), Witness::Dependency)
}

// What target answers.
#[tactic(auto, using(crate::proofs::Laws::Entry::targets))]
fn target_of(sound: Sound, id: usize) -> Result<TargetBindings, Option<Unresolved>>
    ensures target { result ≡ target_bindings (target (tables_in sound.entry.kernel.now) id) }
    ensures within { IfOk result (λ b. b.count ≤ DECLARATIONS) }
{
    let node = sound.node(id);
    if !node.present | node.retired {
        return Err(None);
    }
    scans::target_table(&sound.kernel.nodes, sound.declarations(), id)
}

// begin.
pub(crate) fn begin(sound: Sound, id: usize) -> Result<(), Refusal>
    ensures { result ≡ explained sizes (tables_in sound.entry.kernel.now) (Command.begin id) }
{
    tested(sound, id, check_begin, Place::Begin, STATE_FIRST)?;
    let target = target_of(sound, id).map_err(|missing| {
        let named = lacking(id, missing);
        refusal(Error::MissingDependency, Place::Begin, 4, named)
    })?;
    let sum = sound.links().len() + target.count;
    let over = number_if(LINKS < sum, Measure::LinkSum, sum);
    refused_if(Error::Capacity, Place::Begin, 5, over)
}

// finish and check_iteration.
pub(crate) fn finish(sound: Sound, id: usize) -> Result<(), Refusal>
    ensures { result ≡ explained sizes (tables_in sound.entry.kernel.now) (Command.finish id) }
{
    tested(sound, id, check_loading, Place::Finish, STATE_FIRST)?;
    let missing = target_of(sound, id).err();
    let named = missing.map(|missing| lacking(id, missing));
    refused_if(Error::Changed, Place::Finish, 2, named)
}

// leave.
pub(crate) fn leave(sound: Sound, id: usize) -> Result<(), Refusal>
    ensures { result ≡ explained sizes (tables_in sound.entry.kernel.now) (Command.leave id) }
{
    tested(sound, id, check_running, Place::Leave, STATE_FIRST)
}

// leave_if_changed.
pub(crate) fn leave_if_changed(sound: Sound, id: usize) -> Result<(), Refusal>
    ensures { result ≡ explained sizes (tables_in sound.entry.kernel.now) (Command.leave_if_changed id) }
{
    tested(sound, id, check_running, Place::LeaveIfChanged, STATE_FIRST)?;
    let kept = target_of(sound, id).is_ok();
    let component = kept.then_some(Witness::Component(id));
    refused_if(Error::Changed, Place::LeaveIfChanged, 2, component)
}

// retire.
pub(crate) fn retire(sound: Sound, id: usize) -> Result<(), Refusal>
    ensures { result ≡ explained sizes (tables_in sound.entry.kernel.now) (Command.retire id) }
{
    tested(sound, id, check_present, Place::Identity, STATE_FIRST)
}

// begin_cleanup.
pub(crate) fn begin_cleanup(sound: Sound, id: usize) -> Result<(), Refusal>
    ensures { result ≡ explained sizes (tables_in sound.entry.kernel.now) (Command.begin_cleanup id) }
{
    tested(sound, id, check_unloading, Place::BeginCleanup, STATE_FIRST)?;
    let link = link_of(sound.links(), id);
    refused_if(Error::Relied, Place::BeginCleanup, 2, link)
}

// finish_cleanup.
pub(crate) fn finish_cleanup(sound: Sound, id: usize) -> Result<(), Refusal>
    ensures { result ≡ explained sizes (tables_in sound.entry.kernel.now) (Command.finish_cleanup id) }
{
    let place = Place::FinishCleanup;
    tested(sound, id, check_restoring, place, STATE_FIRST)
}

// remove.
pub(crate) fn remove(sound: Sound, id: usize) -> Result<(), Refusal>
    ensures { result ≡ explained sizes (tables_in sound.entry.kernel.now) (Command.remove id) }
{
    tested(sound, id, check_retired, Place::Remove, STATE_FIRST)?;
    let child = child_of(sound.nodes(), id);
    refused_if(Error::Children, Place::Remove, 2, child)
}
