// The drain of a kernel: the list of commands that stops every component, and the kernel that they leave.
#![tactic(auto)]

ghost use Rattle.std.specs.Prelude.{◌≡◌};
ghost use Rattle.drain.specs.Drains.{drain_of, stopped_of};

use crate::order::cleaning_order;
use crate::stopping::{count, flags_of, kill_links, restore_nodes};
use kernel::{Kernel, Outcome};
use model::{Error, StepCommand};

mod order;
pub mod steps;
mod stopping;
mod uses;

pub use steps::Drain;

// The drain: leave for each Loading or Active component, finish_cleanup for each restoring one, both ascending; then begin_cleanup and finish_cleanup
// of the lowest that can be cleaned, until none is installed. A kernel that is not sound is refused.
#[tactic(auto, using(crate::proofs::Laws::Kernels::drain_unsound, crate::proofs::Laws::Kernels::links_within, crate::proofs::Laws::Kernels::drain_fits, crate::proofs::Laws::Kernels::drain_done))]
pub fn drain(kernel: &Kernel) -> Result<Drain, Error>
    ensures { result ≡ drain_of kernel.now }
{
    if !kernel.sound() {
        return Err(Error::Damaged);
    }
    let flags = flags_of(&kernel.nodes);
    let leaves = scans::places_of(&flags.leaving);
    let restores = scans::places_of(&flags.restoring);
    let cleaned = cleaning_order(&kernel.links[..kernel.link_count], &flags.serving);
    let mut drain = steps::no_steps();
    drain.append(StepCommand::Leave, &leaves);
    drain.append(StepCommand::FinishCleanup, &restores);
    drain.append_cleanups(&cleaned);
    Ok(drain)
}

// The kernel that the drain's commands leave, and how many they are, without playing them: every node Inactive and every link dead.
// One that is not sound comes back as it is.
#[tactic(auto, using(crate::proofs::Laws::Kernels::stop_unsound, crate::proofs::Laws::Kernels::stop_done))]
pub fn stop(mut kernel: Kernel) -> Outcome<usize>
    ensures { result ≡ stopped_of kernel }
{
    if !kernel.sound() {
        let answer = Err(Error::Damaged);
        return Outcome { kernel, answer };
    }
    let flags = flags_of(&kernel.nodes);
    let commands = count(&flags.leaving) + count(&flags.restoring) + 2 * count(&flags.serving);
    restore_nodes(&mut kernel.nodes);
    kill_links(&mut kernel.links);
    let answer = Ok(commands);
    Outcome { kernel, answer }
}
