// Cleanup and removal. Each command has a form in place (`begin_cleanup_in` and the like): it answers the same, and a refusal leaves the kernel as it was.
#![tactic(auto, using(crate::proofs::Laws::Handed::answer_numbered))]

ghost use Rattle.std.specs.Prelude.{◌≡◌, ◌≤◌, OnErr};
ghost use Rattle.kernel.specs.Fields.{layout_of};
ghost use Rattle.kernel.specs.Outcomes.{Does, Returns};
ghost use Rattle.model.specs.Answers.{checked};
ghost use Rattle.model.specs.Commands.{Command};
ghost use Rattle.model.specs.Layouts.{tables_of};
ghost use Rattle.model.specs.UpdateNode.{update_tests};
ghost use Rattle.sizes.specs.Sizes.{IDENTITIES, LINKS};

use crate::{Kernel, Outcome};
use model::{Error, Node};
use records::checks::{check_restoring, check_retired, check_unloading};

impl Kernel {
    // begin_cleanup: an Unloading component that no live link has as provider starts restoring.
    pub fn begin_cleanup(mut self, id: usize) -> Outcome<()>
        ensures { Returns self (Command.begin_cleanup id) result }
    {
        let answer = self.begin_cleanup_in(id);
        Outcome {
            kernel: self,
            answer,
        }
    }

    // begin_cleanup on the kernel in place.
    #[tactic(auto, using(crate::proofs::Laws::Lifecycle::begin_cleanup_laws), unfolding(model::specs::Refusals::first))]
    pub fn begin_cleanup_in(&mut self, id: usize) -> Result<(), Error>
        ensures does { Does self.old (Command.begin_cleanup id) self.new result }
        ensures refused { OnErr result (self.new ≡ self.old) }
    {
        let node = self.entry(id)?;
        check_unloading(node)?;
        let node = records::restoring_node(node);
        self.check_update(id, node)?;
        self.nodes[id] = node;
        Ok(())
    }

    // finish_cleanup: a restoring component becomes Inactive, and its links dead.
    pub fn finish_cleanup(mut self, id: usize) -> Outcome<()>
        ensures { Returns self (Command.finish_cleanup id) result }
    {
        let answer = self.finish_cleanup_in(id);
        Outcome {
            kernel: self,
            answer,
        }
    }

    // finish_cleanup on the kernel in place.
    #[tactic(auto, using(crate::proofs::Laws::Lifecycle::finish_cleanup_laws), unfolding(model::specs::Refusals::first))]
    pub fn finish_cleanup_in(&mut self, id: usize) -> Result<(), Error>
        ensures does { Does self.old (Command.finish_cleanup id) self.new result }
        ensures refused { OnErr result (self.new ≡ self.old) }
    {
        let node = self.entry(id)?;
        check_restoring(node)?;
        // lent by a reference of its own: of a part of self.links lent at once nothing would be known
        let links = &mut self.links;
        let (links, _) = links.split_at_mut(self.link_count);
        edits::dead_links(links, id);
        self.nodes[id] = records::restored_node(node);
        Ok(())
    }

    // remove: a retired and Inactive component without a present child is no longer present.
    pub fn remove(mut self, id: usize) -> Outcome<()>
        ensures { Returns self (Command.remove id) result }
    {
        let answer = self.remove_in(id);
        Outcome {
            kernel: self,
            answer,
        }
    }

    // remove on the kernel in place.
    #[tactic(auto, using(crate::proofs::Laws::Lifecycle::remove_laws))]
    pub fn remove_in(&mut self, id: usize) -> Result<(), Error>
        ensures does { Does self.old (Command.remove id) self.new result }
        ensures refused { OnErr result (self.new ≡ self.old) }
    {
        let node = self.entry(id)?;
        check_retired(node)?;
        let node = records::absent_node(node);
        self.check_update(id, node)?;
        self.nodes[id] = node;
        Ok(())
    }

    // What update_node answers of this node for this identity.
    #[tactic(auto, unfolding(model::specs::Layouts::tables_of))]
    fn check_update(&self, id: usize, node: Node) -> Result<(), Error>
        requires nodes { self.now.node_count ≤ IDENTITIES }
        requires links { self.now.link_count ≤ LINKS }
        ensures { result ≡ checked (update_tests (tables_of (layout_of self.now)) id node) }
    {
        let nodes = &self.nodes[..self.node_count];
        let links = &self.links[..self.link_count];
        scans::update_node(nodes, links, id, node)
    }
}
