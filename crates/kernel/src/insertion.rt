// Insertion. It has a form in place, `insert_in`: it answers the same, and a refusal leaves the kernel as it was.
#![tactic(auto, using(crate::proofs::Laws::Handed::insert_numbered))]

ghost use Rattle.std.specs.Prelude.{◌≡◌, ◌∷◌, [], not, OnErr};
ghost use Rattle.kernel.specs.Fields.{ask};
ghost use Rattle.kernel.specs.Outcomes.{InsertDoes, InsertReturns};
ghost use Rattle.model.specs.Answers.{answer, checked};
ghost use Rattle.model.specs.Commands.{Command};
ghost use Rattle.model.specs.Insertion.{check_insert, parent_present, parent_retired};
ghost use Rattle.model.specs.Refusals.{Reply};
ghost use Rattle.kernel.specs.Ports.{clash};
ghost use Rattle.loops.specs.Columns.{flag};
ghost use Rattle.scans.specs.Flags.{nodes_and_links};
ghost use Rattle.sizes.specs.Sizes.{IDENTITIES, sizes};

use crate::ports::append_ports;
use crate::{Kernel, Outcome};
use model::{Declaration, Error, Node, Parent, Port, PortList};
use records::refuse_if;
use sizes::{DECLARATIONS, IDENTITIES};

impl Kernel {
    // check_insert: what insert would answer, without its identity.
    #[tactic(auto, using(crate::proofs::Laws::Insertion::check_insert_laws), unfolding(model::specs::Refusals::first, model::specs::Kernels::asked, model::specs::Insertion::check_insert))]
    pub fn check_insert(
        &self,
        parent: Parent,
        dependencies: PortList,
        provisions: PortList,
    ) -> Result<(), Error>
        ensures { result ≡ answer (ask self.now (Reply.refused Error.Damaged) (λ T. check_insert sizes T parent dependencies provisions)) }
    {
        refuse_if(!self.sound(), Error::Damaged)?;
        let too_long = (32 < dependencies.count) | (32 < provisions.count);
        refuse_if(too_long, Error::Capacity)?;
        refuse_if(IDENTITIES <= self.node_count, Error::Capacity)?;
        check_parent(&self.nodes[..self.node_count], parent)?;
        let declarations = &self.declarations[..self.declaration_count];
        let wanted = &dependencies.ports[..dependencies.count];
        let offered = &provisions.ports[..provisions.count];
        let flags = scans::node_flags(&self.nodes);
        let clash = clashes(&flags.present, declarations, wanted, offered);
        refuse_if(clash, Error::Conflict)?;
        let sum = declarations.len() + wanted.len() + offered.len();
        refuse_if(DECLARATIONS < sum, Error::Capacity)
    }

    // insert: a new component, with the node count as its identity.
    pub fn insert(
        mut self,
        parent: Parent,
        dependencies: PortList,
        provisions: PortList,
    ) -> Outcome<usize>
        ensures { InsertReturns self (Command.insert parent dependencies provisions) result }
    {
        let answer = self.insert_in(parent, dependencies, provisions);
        Outcome {
            kernel: self,
            answer,
        }
    }

    // insert on the kernel in place.
    #[tactic(auto, using(crate::proofs::Laws::Insertion::insert_laws), unfolding(model::specs::Kernels::asked, model::specs::Kernels::commanded, model::specs::Commands::step, model::specs::Commands::settle, model::specs::Insertion::check_insert))]
    pub fn insert_in(
        &mut self,
        parent: Parent,
        dependencies: PortList,
        provisions: PortList,
    ) -> Result<usize, Error>
        ensures does { InsertDoes self.old (Command.insert parent dependencies provisions) self.new result }
        ensures refused { OnErr result (self.new ≡ self.old) }
    {
        self.check_insert(parent, dependencies, provisions)?;
        let id = self.node_count;
        let wanted = &dependencies.ports[..dependencies.count];
        let offered = &provisions.ports[..provisions.count];
        let count = self.declaration_count;
        let count = append_ports(&mut self.declarations, count, id, wanted, false);
        let count = append_ports(&mut self.declarations, count, id, offered, true);
        self.declaration_count = count;
        self.nodes[id] = records::new_node(parent);
        self.node_count = id + 1;
        Ok(id)
    }
}

// What insert tests of the parent.
#[tactic(auto, unfolding(model::specs::Refusals::first, model::specs::Insertion::parent_present, model::specs::Insertion::parent_retired, model::specs::Tables::node_at))]
fn check_parent(nodes: &[Node], parent: Parent) -> Result<(), Error>
    ensures { result ≡ checked ((not (parent_present (nodes_and_links nodes.now []) parent), Error.Unknown) ∷ (parent_retired (nodes_and_links nodes.now []) parent, Error.Retired) ∷ []) }
{
    let Parent::Of(p) = parent else {
        return Ok(());
    };
    match nodes.get(p) {
        Some(above) if above.present => refuse_if(above.retired, Error::Retired),
        _ => Err(Error::Unknown),
    }
}

// Whether a list repeats a port, or a present owner provides a listed provision; present tells who is.
#[tactic(auto, unfolding(crate::specs::Ports::clash))]
fn clashes(
    present: &[bool; IDENTITIES],
    declarations: &[Declaration],
    wanted: &[Port],
    offered: &[Port],
) -> bool
    ensures { result ≡ clash (flag IDENTITIES present.now) declarations.now wanted.now offered.now }
{
    !(scans::check_provisions(offered, declarations, present) && loops::distinct_ports(wanted))
}
