// The test behind a refusal: which test of its row refuses a command or a check, and what it found.
#![tactic(auto)]

ghost use Rattle.std.specs.Prelude.{◌≡◌};
ghost use Rattle.explain.specs.Explanations.{command_of, explanation_of, tables_in};
ghost use Rattle.model.specs.Commands.{Command};
ghost use Rattle.model.specs.Explanation.{explained};
ghost use Rattle.sizes.specs.Sizes.{sizes};

use crate::answers::refusal;
use crate::entry::Sound;
use kernel::Kernel;
use model::{Error, Parent, Place, PortList, Refusal, Witness};

mod answers;
pub mod calls;
mod clashes;
mod entry;
mod insertion;
mod interface;
mod lifecycle;
mod nodes;
mod witnesses;

pub use calls::Call;

// What the command would answer on the kernel: accepted, or the refusal with the first test that applies. Nothing is changed.
#[tactic(auto, using(crate::proofs::Laws::Entry::asked))]
pub fn explain(kernel: &Kernel, call: Call) -> Result<(), Refusal>
    ensures { result ≡ explanation_of kernel.now (command_of call) }
{
    if !kernel.sound() {
        return Err(refusal(Error::Damaged, Place::Entry, 1, Witness::Nothing));
    }
    row(Sound { kernel }, call)
}

// What check_insert would answer: insert's rows.
pub fn explain_check_insert(
    kernel: &Kernel,
    parent: Parent,
    dependencies: PortList,
    provisions: PortList,
) -> Result<(), Refusal>
    ensures { result ≡ explanation_of kernel.now (Command.insert parent dependencies provisions) }
{
    let call = Call::Insert {
        parent,
        dependencies,
        provisions,
    };
    explain(kernel, call)
}

// What check_iteration would answer: finish's row.
pub fn explain_check_iteration(kernel: &Kernel, id: usize) -> Result<(), Refusal>
    ensures { result ≡ explanation_of kernel.now (Command.finish id) }
{
    explain(kernel, Call::Finish { id })
}

// The command's row.
#[tactic(auto, unfolding(model::specs::Explanation::explained, model::specs::Explanation::explain))]
fn row(sound: Sound, call: Call) -> Result<(), Refusal>
    ensures { result ≡ explained sizes (tables_in sound.entry.kernel.now) (command_of call) }
{
    match call {
        Call::Insert {
            parent,
            dependencies,
            provisions,
        } => insertion::insert(sound, parent, dependencies, provisions),
        Call::DeclareProvision { id, port } => interface::declare_provision(sound, id, port),
        Call::ReleaseProvision { id, port } => interface::release_provision(sound, id, port),
        Call::ConfigurePendingDependencies { id, dependencies } => {
            interface::configure(sound, id, dependencies)
        }
        Call::Begin { id } => lifecycle::begin(sound, id),
        Call::Finish { id } => lifecycle::finish(sound, id),
        Call::Leave { id } => lifecycle::leave(sound, id),
        Call::LeaveIfChanged { id } => lifecycle::leave_if_changed(sound, id),
        Call::Retire { id } => lifecycle::retire(sound, id),
        Call::BeginCleanup { id } => lifecycle::begin_cleanup(sound, id),
        Call::FinishCleanup { id } => lifecycle::finish_cleanup(sound, id),
        Call::Remove { id } => lifecycle::remove(sound, id),
        Call::CompactBindings | Call::CompactDeclarations => Ok(()),
    }
}
