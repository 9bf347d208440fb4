// Lifecycle. Each command has a form in place (`begin_in` and the like): it answers the same, and a refusal leaves the kernel as it was.
#![tactic(auto, using(crate::proofs::Laws::Handed::answer_numbered))]

ghost use Rattle.std.specs.Prelude.{◌≡◌, ◌+◌, ◌<◌, ◌≤◌, OnErr, length};
ghost use Rattle.kernel.specs.Fields.{ask};
ghost use Rattle.kernel.specs.Links.{LinksBlankPast, ProvidersWithin, linked_to};
ghost use Rattle.kernel.specs.Outcomes.{Does, Returns};
ghost use Rattle.model.specs.Answers.{answer};
ghost use Rattle.model.specs.Commands.{Command};
ghost use Rattle.model.specs.Lifecycle.{check_iteration};
ghost use Rattle.model.specs.Refusals.{Reply};
ghost use Rattle.sizes.specs.Sizes.{IDENTITIES, LINKS};

use crate::{Kernel, Outcome};
use model::{Binding, Error, Link, Node, Phase};
use records::checks::{check_begin, check_loading, check_present, check_running};
use records::refuse_if;
use sizes::{IDENTITIES, LINKS};

impl Kernel {
    // begin: an Inactive component with a target becomes Loading, and the target its live links, each with its provider's generation.
    pub fn begin(mut self, id: usize) -> Outcome<()>
        ensures { Returns self (Command.begin id) result }
    {
        let answer = self.begin_in(id);
        Outcome {
            kernel: self,
            answer,
        }
    }

    // begin on the kernel in place.
    #[tactic(auto, using(crate::proofs::Laws::Lifecycle::begin_laws), unfolding(model::specs::Refusals::first))]
    pub fn begin_in(&mut self, id: usize) -> Result<(), Error>
        ensures does { Does self.old (Command.begin id) self.new result }
        ensures refused { OnErr result (self.new ≡ self.old) }
    {
        let node = self.entry(id)?;
        check_begin(node)?;
        let declarations = &self.declarations[..self.declaration_count];
        let target = scans::target_table(&self.nodes, declarations, id);
        let target = target.map_err(|_| Error::MissingDependency)?;
        refuse_if(LINKS - self.link_count < target.count, Error::Capacity)?;
        let bindings = &target.bindings[..target.count];
        self.link_count = append_links(&mut self.links, self.link_count, &self.nodes, id, bindings);
        self.nodes[id] = records::started_node(node.generation + 1, node);
        Ok(())
    }

    // check_iteration: whether a Loading component still has a target.
    #[tactic(auto, using(crate::proofs::Laws::Lifecycle::iteration_laws), unfolding(model::specs::Kernels::asked, model::specs::Refusals::first))]
    pub fn check_iteration(&self, id: usize) -> Result<(), Error>
        ensures { result ≡ answer (ask self.now (Reply.refused Error.Damaged) (λ T. check_iteration T id)) }
    {
        let node = self.entry(id)?;
        check_loading(node)?;
        let declarations = &self.declarations[..self.declaration_count];
        let target = scans::target_table(&self.nodes, declarations, id);
        refuse_if(node.retired | target.is_err(), Error::Changed)
    }

    // finish: a Loading component that still has a target becomes Active.
    pub fn finish(mut self, id: usize) -> Outcome<()>
        ensures { Returns self (Command.finish id) result }
    {
        let answer = self.finish_in(id);
        Outcome {
            kernel: self,
            answer,
        }
    }

    // finish on the kernel in place.
    #[tactic(auto, using(crate::proofs::Laws::Lifecycle::finish_laws), unfolding(model::specs::Kernels::asked))]
    pub fn finish_in(&mut self, id: usize) -> Result<(), Error>
        ensures does { Does self.old (Command.finish id) self.new result }
        ensures refused { OnErr result (self.new ≡ self.old) }
    {
        self.check_iteration(id)?;
        self.nodes[id].phase = Phase::Active;
        Ok(())
    }

    // leave: a Loading or Active component becomes Unloading.
    pub fn leave(mut self, id: usize) -> Outcome<()>
        ensures { Returns self (Command.leave id) result }
    {
        let answer = self.leave_in(id);
        Outcome {
            kernel: self,
            answer,
        }
    }

    // leave on the kernel in place.
    #[tactic(auto, using(crate::proofs::Laws::Lifecycle::leave_laws), unfolding(model::specs::Refusals::first))]
    pub fn leave_in(&mut self, id: usize) -> Result<(), Error>
        ensures does { Does self.old (Command.leave id) self.new result }
        ensures refused { OnErr result (self.new ≡ self.old) }
    {
        let node = self.entry(id)?;
        check_running(node)?;
        self.nodes[id].phase = Phase::Unloading;
        Ok(())
    }

    // leave_if_changed: a Loading or Active component that has no target becomes Unloading.
    pub fn leave_if_changed(mut self, id: usize) -> Outcome<()>
        ensures { Returns self (Command.leave_if_changed id) result }
    {
        let answer = self.leave_if_changed_in(id);
        Outcome {
            kernel: self,
            answer,
        }
    }

    // leave_if_changed on the kernel in place.
    #[tactic(auto, using(crate::proofs::Laws::Lifecycle::leave_if_changed_laws), unfolding(model::specs::Refusals::first))]
    pub fn leave_if_changed_in(&mut self, id: usize) -> Result<(), Error>
        ensures does { Does self.old (Command.leave_if_changed id) self.new result }
        ensures refused { OnErr result (self.new ≡ self.old) }
    {
        let node = self.entry(id)?;
        check_running(node)?;
        let declarations = &self.declarations[..self.declaration_count];
        let target = scans::target_table(&self.nodes, declarations, id);
        refuse_if(!node.retired & target.is_ok(), Error::Changed)?;
        self.nodes[id].phase = Phase::Unloading;
        Ok(())
    }

    // retire: in each phase, and twice.
    pub fn retire(mut self, id: usize) -> Outcome<()>
        ensures { Returns self (Command.retire id) result }
    {
        let answer = self.retire_in(id);
        Outcome {
            kernel: self,
            answer,
        }
    }

    // retire on the kernel in place.
    #[tactic(auto, using(crate::proofs::Laws::Lifecycle::retire_laws), unfolding(model::specs::Refusals::first))]
    pub fn retire_in(&mut self, id: usize) -> Result<(), Error>
        ensures does { Does self.old (Command.retire id) self.new result }
        ensures refused { OnErr result (self.new ≡ self.old) }
    {
        let node = self.entry(id)?;
        check_present(node)?;
        self.nodes[id].retired = true;
        Ok(())
    }
}

// Behind the links below the count a live link of this consumer for each binding, with the generation of its provider's node; how many there are then.
#[tactic(auto, using(crate::proofs::Laws::Links::provider_in, crate::proofs::Laws::Links::linked_next), unfolding(model::specs::Tables::node_at))]
fn append_links(
    links: &mut [Link; LINKS],
    count: usize,
    nodes: &[Node; IDENTITIES],
    id: usize,
    bindings: &[Binding],
) -> usize
    requires named { id < IDENTITIES }
    requires providers { ProvidersWithin bindings.now }
    requires room { count + length bindings.now ≤ LINKS }
    requires blank { LinksBlankPast count links.old }
    ensures array { links.new ≡ linked_to nodes.now id count links.old bindings.now }
    ensures counted { result ≡ count + length bindings.now }
{
    for (i, b) in bindings.iter().enumerate() {
        links[count + i] = records::live_link(id, *b, nodes[b.provider].generation);
    }
    count + bindings.len()
}
