// Interface commands. Each has a form in place (`declare_provision_in` and the like): it answers the same, and a refusal leaves the kernel as it was.
#![tactic(auto, using(crate::proofs::Laws::Handed::answer_numbered))]

ghost use Rattle.std.specs.Prelude.{◌≡◌, ◌≤◌, Bool, OnErr};
ghost use Rattle.edits.specs.Kept.{Answers};
ghost use Rattle.kernel.specs.Ports.{declarations_kept};
ghost use Rattle.kernel.specs.Outcomes.{Does, Returns, answer_of};
ghost use Rattle.model.specs.Commands.{Command};
ghost use Rattle.model.specs.Interface.{configure_tests};
ghost use Rattle.sizes.specs.Sizes.{DECLARATIONS, sizes};

use crate::ports::append_ports;
use crate::{Kernel, Outcome};
use model::{Declaration, Error, Port, PortList};
use records::checks::{check_configure, check_declare, check_present};
use records::refuse_if;
use sizes::DECLARATIONS;

impl Kernel {
    // declare_provision: appends a provision, unless this owner provides the port.
    pub fn declare_provision(mut self, id: usize, port: Port) -> Outcome<()>
        ensures { Returns self (Command.declare_provision id port) result }
    {
        let answer = self.declare_provision_in(id, port);
        Outcome {
            kernel: self,
            answer,
        }
    }

    // declare_provision on the kernel in place.
    #[tactic(auto, using(crate::proofs::Laws::Interface::declare_laws), unfolding(model::specs::Refusals::first, model::specs::Kernels::asked, model::specs::Kernels::commanded, model::specs::Commands::step, model::specs::Commands::settle))]
    pub fn declare_provision_in(&mut self, id: usize, port: Port) -> Result<(), Error>
        ensures does { Does self.old (Command.declare_provision id port) self.new result }
        ensures refused { OnErr result (self.new ≡ self.old) }
    {
        check_declare(self.entry(id)?)?;
        let count = self.declaration_count;
        let declarations = &self.declarations[..count];
        if scans::declares_in(declarations, id, port, true) {
            return Ok(());
        }
        let flags = scans::node_flags(&self.nodes);
        let taken = scans::taken_in(declarations, &flags.present, port);
        refuse_if(taken, Error::Conflict)?;
        refuse_if(DECLARATIONS <= count, Error::Capacity)?;
        self.declarations[count] = records::provision(id, port);
        self.declaration_count = count + 1;
        Ok(())
    }

    // release_provision: drops every provision of this owner and port.
    pub fn release_provision(mut self, id: usize, port: Port) -> Outcome<()>
        ensures { Returns self (Command.release_provision id port) result }
    {
        let answer = self.release_provision_in(id, port);
        Outcome {
            kernel: self,
            answer,
        }
    }

    // release_provision on the kernel in place.
    #[tactic(auto, using(crate::proofs::Laws::Arrays::links_read), unfolding(model::specs::Refusals::first, model::specs::Kernels::asked, model::specs::Kernels::commanded, model::specs::Commands::step, model::specs::Commands::settle))]
    pub fn release_provision_in(&mut self, id: usize, port: Port) -> Result<(), Error>
        ensures does { Does self.old (Command.release_provision id port) self.new result }
        ensures refused { OnErr result (self.new ≡ self.old) }
    {
        check_present(self.entry(id)?)?;
        let relied = scans::relies_on(&self.links[..self.link_count], id, port);
        refuse_if(relied, Error::Relied)?;
        self.keep_declarations(|d| !records::is_declaration(id, port, true, d));
        Ok(())
    }

    // configure_pending_dependencies: replaces the dependencies of a component that has never begun.
    pub fn configure_pending_dependencies(mut self, id: usize, list: PortList) -> Outcome<()>
        ensures { Returns self (Command.configure_pending_dependencies id list) result }
    {
        let answer = self.configure_pending_dependencies_in(id, list);
        Outcome {
            kernel: self,
            answer,
        }
    }

    // configure_pending_dependencies on the kernel in place.
    #[tactic(auto, using(crate::proofs::Laws::Interface::configure_laws), unfolding(model::specs::Kernels::asked, model::specs::Kernels::commanded, model::specs::Commands::step, model::specs::Commands::settle))]
    pub fn configure_pending_dependencies_in(
        &mut self,
        id: usize,
        list: PortList,
    ) -> Result<(), Error>
        ensures does { Does self.old (Command.configure_pending_dependencies id list) self.new result }
        ensures refused { OnErr result (self.new ≡ self.old) }
    {
        self.check_configure(id, list)?;
        self.keep_declarations(|d| !records::is_dependency_of(id, d));
        let kept = self.declaration_count;
        let ports = &list.ports[..list.count];
        self.declaration_count = append_ports(&mut self.declarations, kept, id, ports, false);
        Ok(())
    }

    // What configure_pending_dependencies answers.
    #[tactic(auto, using(crate::proofs::Laws::Interface::check_configure_laws), unfolding(model::specs::Refusals::first, model::specs::Kernels::asked))]
    fn check_configure(&self, id: usize, list: PortList) -> Result<(), Error>
        ensures { result ≡ answer_of self.now (λ T. configure_tests sizes T id list) }
    {
        let node = self.entry(id)?;
        refuse_if(32 < list.count, Error::Capacity)?;
        check_configure(node)?;
        let ports = &list.ports[..list.count];
        let rest = scans::remaining_in(&self.declarations[..self.declaration_count], id);
        refuse_if(DECLARATIONS < rest + ports.len(), Error::Capacity)?;
        refuse_if(!loops::distinct_ports(ports), Error::Conflict)
    }

    // Keeps the declarations that pass a test; on a table of its own, so that the compiler sees that the links stay, and leaves their copies out.
    pub(crate) fn keep_declarations<F: Fn(Declaration) -> bool>(&mut self, keeps: F)
        requires callable { F.IsAlwaysCallable keeps }
        requires within { self.old.declaration_count ≤ DECLARATIONS }
        ensures { (p : Declaration → Bool) → Answers (F.post keeps) p → self.new ≡ declarations_kept p self.old }
    {
        let mut declarations = self.declarations;
        let (used, _) = declarations.split_at_mut(self.declaration_count);
        self.declaration_count = edits::retain(used, records::blank_declaration(), keeps);
        self.declarations = declarations;
    }
}
