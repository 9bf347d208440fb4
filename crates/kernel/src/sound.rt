// The empty kernel, and whether a kernel is sound.
ghost use Rattle.std.specs.Prelude.{◌≡◌, []};
ghost use Rattle.kernel.specs.Fields.{ask, is_sound, kernel_of};
ghost use Rattle.model.specs.Kernels.{empty_kernel};
ghost use Rattle.sizes.specs.Sizes.{sizes};

use crate::Kernel;
use model::{Declaration, Link};
use sizes::{DECLARATIONS, IDENTITIES, LINKS};

impl Kernel {
    // The empty kernel.
    #[tactic(auto, unfolding(model::specs::Layouts::lay_out, model::specs::Lists::padded))]
    pub fn new() -> Self
        ensures { result ≡ kernel_of (empty_kernel sizes) }
    {
        Kernel {
            nodes: [records::blank_node(); IDENTITIES],
            node_count: 0,
            declarations: [records::blank_declaration(); DECLARATIONS],
            declaration_count: 0,
            links: [records::blank_link(); LINKS],
            link_count: 0,
        }
    }

    // Whether the kernel is sound: counts within the sizes, blanks past them, and the nine points.
    pub fn sound(&self) -> bool
        ensures { result ≡ is_sound self.now }
    {
        soundness::tables_sound(
            &self.nodes,
            self.node_count,
            &self.declarations,
            self.declaration_count,
            &self.links,
            self.link_count,
        )
    }

    // The declarations below the count; none of a kernel that is not sound.
    #[tactic(auto, using(crate::proofs::Laws::Arrays::sound_kernel, crate::proofs::Laws::Arrays::declarations_within), unfolding(model::specs::Kernels::asked, model::specs::Layouts::tables_of))]
    pub(crate) fn sound_declarations(&self) -> &[Declaration]
        ensures { result.now ≡ ask self.now [] (λ T. T.declarations) }
    {
        if self.sound() {
            &self.declarations[..self.declaration_count]
        } else {
            &[]
        }
    }

    // The links below the count; none of a kernel that is not sound.
    #[tactic(auto, using(crate::proofs::Laws::Arrays::sound_kernel, crate::proofs::Laws::Arrays::links_within), unfolding(model::specs::Kernels::asked, model::specs::Layouts::tables_of))]
    pub(crate) fn sound_links(&self) -> &[Link]
        ensures { result.now ≡ ask self.now [] (λ T. T.links) }
    {
        if self.sound() {
            &self.links[..self.link_count]
        } else {
            &[]
        }
    }
}
