// The component that a call names: its node, looked up behind the entry test.
ghost use Rattle.kernel.specs.Outcomes.{Enters};

use crate::Kernel;
use model::{Error, Node};
use sizes::IDENTITIES;

impl Kernel {
    // The identity's node, blank past the table; refused where the kernel is not sound.
    #[tactic(auto, using(crate::proofs::Laws::Arrays::entry_laws), unfolding(model::specs::Kernels::asked))]
    pub(crate) fn entry(&self, id: usize) -> Result<Node, Error>
        ensures { Enters self.now id result }
    {
        if !self.sound() {
            return Err(Error::Damaged);
        }
        if IDENTITIES <= id {
            return Ok(records::blank_node());
        }
        Ok(self.nodes[id])
    }
}
