// resolve, target, committed.
ghost use Rattle.std.specs.Prelude.{◌≡◌, []};
ghost use Rattle.kernel.specs.Fields.{ask};
ghost use Rattle.model.specs.Resolution.{Target, resolve, target, committed};
ghost use Rattle.results.specs.Results.{target_bindings, committed_bindings};

use crate::Kernel;
use model::{Port, Resolution, Unresolved};
use results::{CommittedBindings, TargetBindings};

impl Kernel {
    // Who provides the port: the Active provider, a present owner that is not Active, or no present owner.
    #[tactic(auto, using(crate::proofs::Laws::Arrays::sound_kernel, crate::proofs::Laws::Arrays::resolve_found), unfolding(model::specs::Kernels::asked, model::specs::Resolution::look_up))]
    pub fn resolve(&self, port: Port) -> Resolution
        ensures { result ≡ ask self.now Resolution.NoOwner (λ T. resolve T port) }
    {
        scans::resolve_table(&self.nodes, self.sound_declarations(), port)
    }

    // A binding for each dependency, in declaration order; none, with the first port that does not resolve; none of a retired or absent component.
    #[tactic(auto, using(crate::proofs::Laws::Entered::no_target, crate::proofs::Laws::Entered::target_is), unfolding(model::specs::Kernels::asked))]
    pub fn target(&self, id: usize) -> Result<TargetBindings, Option<Unresolved>>
        ensures { result ≡ target_bindings (ask self.now Target.nothing (λ T. target T id)) }
    {
        let node = self.entry(id).map_err(|_| None)?;
        if !node.present | node.retired {
            return Err(None);
        }
        scans::target_table(
            &self.nodes,
            &self.declarations[..self.declaration_count],
            id,
        )
    }

    // The bindings of a consumer's live links, in link order.
    #[tactic(auto, unfolding(model::specs::Kernels::asked, model::specs::Layouts::tables_of, model::specs::Resolution::committed))]
    pub fn committed(&self, id: usize) -> CommittedBindings
        ensures { result ≡ committed_bindings (ask self.now [] (λ T. committed T.links id)) }
    {
        scans::committed_in(self.sound_links(), id)
    }
}
