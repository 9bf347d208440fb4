// Compaction, each within its own table. Each has a form in place (`compact_bindings_in` and the like): it answers the same, and a refusal leaves the kernel as it was.
#![tactic(auto, using(crate::proofs::Laws::Handed::compaction_numbered))]

ghost use Rattle.std.specs.Prelude.{◌≡◌, OnErr};
ghost use Rattle.kernel.specs.Outcomes.{CompactionDoes, CompactionReturns};
ghost use Rattle.model.specs.Commands.{Command};

use crate::{Kernel, Outcome};
use model::Error;
use records::refuse_if;

impl Kernel {
    // compact_bindings: keeps the live links.
    pub fn compact_bindings(mut self) -> Outcome<usize>
        ensures { CompactionReturns self Command.compact_bindings result }
    {
        let answer = self.compact_bindings_in();
        Outcome {
            kernel: self,
            answer,
        }
    }

    // compact_bindings on the kernel in place.
    #[tactic(auto, using(crate::proofs::Laws::Arrays::sound_kernel, crate::proofs::Laws::Arrays::links_within), unfolding(model::specs::Refusals::first, model::specs::Kernels::asked, model::specs::Kernels::commanded, model::specs::Commands::step, model::specs::Commands::settle))]
    pub fn compact_bindings_in(&mut self) -> Result<usize, Error>
        ensures does { CompactionDoes self.old Command.compact_bindings self.new result }
        ensures refused { OnErr result (self.new ≡ self.old) }
    {
        refuse_if(!self.sound(), Error::Damaged)?;
        let count = self.link_count;
        let links = &mut self.links;
        let (links, _) = links.split_at_mut(count);
        self.link_count = edits::retain(links, records::blank_link(), |l| l.live);
        Ok(count - self.link_count)
    }

    // compact_declarations: keeps the declarations of present owners.
    pub fn compact_declarations(mut self) -> Outcome<usize>
        ensures { CompactionReturns self Command.compact_declarations result }
    {
        let answer = self.compact_declarations_in();
        Outcome {
            kernel: self,
            answer,
        }
    }

    // compact_declarations on the kernel in place.
    #[tactic(auto, using(crate::proofs::Laws::Arrays::sound_kernel, crate::proofs::Laws::Arrays::declarations_within), unfolding(model::specs::Refusals::first, model::specs::Kernels::asked, model::specs::Kernels::commanded, model::specs::Commands::step, model::specs::Commands::settle))]
    pub fn compact_declarations_in(&mut self) -> Result<usize, Error>
        ensures does { CompactionDoes self.old Command.compact_declarations self.new result }
        ensures refused { OnErr result (self.new ≡ self.old) }
    {
        refuse_if(!self.sound(), Error::Damaged)?;
        let flags = scans::node_flags(&self.nodes);
        let count = self.declaration_count;
        self.keep_declarations(|d| scans::flag_at(&flags.present, records::owner_in(d)));
        Ok(count - self.declaration_count)
    }
}
