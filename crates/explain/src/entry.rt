// What the rows read of a kernel, behind the entry test.
ghost use Rattle.std.specs.Prelude.{get_or, length, true, ◌<◌, ◌≡◌, ◌≤◌};
ghost use Rattle.explain.specs.Explanations.{tables_in};
ghost use Rattle.kernel.specs.Fields.{is_sound, layout_of};
ghost use Rattle.model.specs.Layouts.{Sized};
ghost use Rattle.model.specs.Records.{blank_node};
ghost use Rattle.model.specs.Tables.{node_at};
ghost use Rattle.sizes.specs.Sizes.{DECLARATIONS, IDENTITIES, LINKS, sizes};

use kernel::Kernel;
use model::{Declaration, Link, Node};
use sizes::IDENTITIES;

// A kernel that passed the entry test: the rows take it, so that none tests again.
#[derive(Clone, Copy)]
pub(crate) struct Sound<'a> {
    pub(crate) kernel: &'a Kernel,
    ghost sound: { is_sound kernel.now ≡ true },
}

impl<'a> Sound<'a> {
    // The identity's node, blank past the table; where one is present, the arrays are as long as their types say.
    pub(crate) fn node(self, id: usize) -> Node
        ensures node { result ≡ node_at (tables_in self.entry.kernel.now).nodes id }
        ensures sized { result.present ≡ true → Sized sizes (layout_of self.entry.kernel.now) }
    {
        node_in(self.kernel, id)
    }

    // The nodes below their count.
    #[tactic(auto, using(crate::proofs::Laws::Entry::within), unfolding(model::specs::Layouts::tables_of))]
    pub(crate) fn nodes(self) -> &'a [Node]
        ensures { result.now ≡ (tables_in self.entry.kernel.now).nodes }
    {
        &self.kernel.nodes[..self.kernel.node_count]
    }

    // The declarations below their count.
    #[tactic(auto, using(crate::proofs::Laws::Entry::within), unfolding(model::specs::Layouts::tables_of))]
    pub(crate) fn declarations(self) -> &'a [Declaration]
        ensures table { result.now ≡ (tables_in self.entry.kernel.now).declarations }
        ensures within { length result.now ≤ DECLARATIONS }
    {
        &self.kernel.declarations[..self.kernel.declaration_count]
    }

    // The links below their count.
    #[tactic(auto, using(crate::proofs::Laws::Entry::within), unfolding(model::specs::Layouts::tables_of))]
    pub(crate) fn links(self) -> &'a [Link]
        ensures table { result.now ≡ (tables_in self.entry.kernel.now).links }
        ensures within { length result.now ≤ LINKS }
    {
        &self.kernel.links[..self.kernel.link_count]
    }
}

// The node at this place of the array, blank past it.
fn node_in(kernel: &Kernel, id: usize) -> Node
    ensures within { id < IDENTITIES → (result ≡ get_or kernel.now.nodes id blank_node) × Sized sizes (layout_of kernel.now) }
    ensures past { IDENTITIES ≤ id → result ≡ blank_node }
{
    if id < IDENTITIES {
        kernel.nodes[id]
    } else {
        records::blank_node()
    }
}
