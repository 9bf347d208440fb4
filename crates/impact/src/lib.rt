// Who is hit if a component leaves.
#![tactic(auto)]

ghost use Rattle.std.specs.Prelude.{◌≡◌};
ghost use Rattle.impact.specs.Affected.{affected_of};

use crate::links::{hit_flags, uses_of};
use kernel::Kernel;
use model::Error;
use results::Identities;
use sizes::IDENTITIES;

mod links;

// The other Loading or Active components that have a target and would have none after this one's leave, ascending; or leave's refusal.
// No kernel is made for the leave: on a sound one the live links tell who relies on it, and who has a target.
#[tactic(auto, using(crate::proofs::Laws::Kernels::affected_unsound, crate::proofs::Laws::Kernels::links_within, crate::proofs::Laws::Kernels::affected_past, crate::proofs::Laws::Kernels::affected_found))]
pub fn affected(kernel: &Kernel, id: usize) -> Result<Identities, Error>
    ensures { result ≡ affected_of kernel.now id }
{
    if !kernel.sound() {
        return Err(Error::Damaged);
    }
    if IDENTITIES <= id {
        return Err(Error::Unknown);
    }
    records::checks::check_running(kernel.nodes[id])?;
    let flags = scans::node_flags(&kernel.nodes);
    let uses = uses_of(&kernel.links[..kernel.link_count], &flags.providing, id);
    let hit = hit_flags(&kernel.nodes, &uses);
    Ok(scans::places_of(&hit))
}
