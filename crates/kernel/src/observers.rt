// The observers. Of a kernel that is not sound the tables are empty.
#![tactic(auto, using(crate::proofs::Laws::Arrays::observer_laws), unfolding(model::specs::Kernels::asked, model::specs::Lists::find, model::specs::Lists::padded))]

ghost use Rattle.std.specs.Prelude.{◌≡◌, false, []};
ghost use Rattle.std.proofs.Math.Option.{none};
ghost use Rattle.kernel.specs.Fields.{ask};
ghost use Rattle.model.specs.Answers.{as_option};
ghost use Rattle.model.specs.Soundness.{declares};
ghost use Rattle.model.specs.Observers.{contains, phase, retired, cleanup_started, episode_generation, binding_records, identity_slots, declaration_records, dependency_declared, provision_reserved, link_generation, ids, children};
ghost use Rattle.results.specs.Results.{identities};

use crate::Kernel;
use model::{Phase, Port};
use results::Identities;
use sizes::IDENTITIES;

// Of a kernel that is not sound.
const NO_IDENTITIES: Identities = Identities {
    ids: [0; IDENTITIES],
    count: 0,
};

impl Kernel {
    // Whether the identity is present.
    pub fn contains(&self, id: usize) -> bool
        ensures { result ≡ ask self.now false (λ T. contains T id) }
    {
        self.entry(id).is_ok_and(|node| node.present)
    }

    // The phase of a present component.
    pub fn phase(&self, id: usize) -> Option<Phase>
        ensures { result ≡ as_option (ask self.now none (λ T. phase T id)) }
    {
        let node = self.entry(id).ok()?;
        node.present.then_some(node.phase)
    }

    // Whether the identity is present and retired.
    pub fn retired(&self, id: usize) -> bool
        ensures { result ≡ ask self.now false (λ T. retired T id) }
    {
        self.entry(id).is_ok_and(|node| node.present & node.retired)
    }

    // Whether the identity is present and restoring.
    pub fn cleanup_started(&self, id: usize) -> bool
        ensures { result ≡ ask self.now false (λ T. cleanup_started T id) }
    {
        self.entry(id)
            .is_ok_and(|node| node.present & node.restoring)
    }

    // How often a present component has begun.
    pub fn episode_generation(&self, id: usize) -> Option<u64>
        ensures { result ≡ as_option (ask self.now none (λ T. episode_generation T id)) }
    {
        let node = self.entry(id).ok()?;
        node.present.then_some(node.generation)
    }

    // How many link records there are, dead ones among them.
    pub fn binding_records(&self) -> usize
        ensures { result ≡ ask self.now 0 binding_records }
    {
        if self.sound() { self.link_count } else { 0 }
    }

    // How many identities have been issued.
    pub fn identity_slots(&self) -> usize
        ensures { result ≡ ask self.now 0 identity_slots }
    {
        if self.sound() { self.node_count } else { 0 }
    }

    // How many declaration records there are.
    pub fn declaration_records(&self) -> usize
        ensures { result ≡ ask self.now 0 declaration_records }
    {
        if self.sound() {
            self.declaration_count
        } else {
            0
        }
    }

    // Whether this owner, present or not, has declared the port as a dependency.
    pub fn dependency_declared(&self, owner: usize, port: Port) -> bool
        ensures { result ≡ ask self.now false (λ T. dependency_declared T owner port) }
    {
        self.declares(owner, port, false)
    }

    // Whether this owner, present or not, has declared the port as a provision.
    pub fn provision_reserved(&self, owner: usize, port: Port) -> bool
        ensures { result ≡ ask self.now false (λ T. provision_reserved T owner port) }
    {
        self.declares(owner, port, true)
    }

    // Whether it has declared it as this, a provision or a dependency.
    fn declares(&self, owner: usize, port: Port, provision: bool) -> bool
        ensures { result ≡ ask self.now false (λ T. declares T.declarations owner port provision) }
    {
        scans::declares_in(self.sound_declarations(), owner, port, provision)
    }

    // The generation that a live link of this consumer and port stores: its provider's at the consumer's begin.
    pub fn link_generation(&self, consumer: usize, port: Port) -> Option<u64>
        ensures { result ≡ as_option (ask self.now none (λ T. link_generation T.links consumer port)) }
    {
        scans::link_generation_in(self.sound_links(), consumer, port)
    }

    // The present identities, ascending.
    pub fn ids(&self) -> Identities
        ensures { result ≡ identities (ask self.now [] ids) }
    {
        if !self.sound() {
            return NO_IDENTITIES;
        }
        scans::places_of(&scans::node_flags(&self.nodes).present)
    }

    // The present identities with this parent, which need not be present, ascending.
    pub fn children(&self, id: usize) -> Identities
        ensures { result ≡ identities (ask self.now [] (λ T. children T id)) }
    {
        if !self.sound() {
            return NO_IDENTITIES;
        }
        scans::places_of(&scans::child_flags(&self.nodes, id))
    }
}
