// Whether two kernels are the same in every field of every entry, past the counts too.
use kernel::Kernel;
use model::{Declaration, Link, Node};

fn same_node(a: &Node, b: &Node) -> bool {
    a.present == b.present
        && a.retired == b.retired
        && a.restoring == b.restoring
        && a.phase == b.phase
        && records::parent_in(*a) == records::parent_in(*b)
        && a.generation == b.generation
}

fn same_declaration(a: &Declaration, b: &Declaration) -> bool {
    a.owner == b.owner && a.port == b.port && a.provides == b.provides
}

fn same_link(a: &Link, b: &Link) -> bool {
    a.consumer == b.consumer
        && a.key == b.key
        && a.realm == b.realm
        && a.provider == b.provider
        && a.live == b.live
        && a.generation == b.generation
}

// The counts, and the three tables side by side.
pub fn same(a: &Kernel, b: &Kernel) -> bool {
    let mut nodes = a.nodes.iter().zip(&b.nodes);
    let mut declarations = a.declarations.iter().zip(&b.declarations);
    let mut links = a.links.iter().zip(&b.links);
    a.node_count == b.node_count
        && a.declaration_count == b.declaration_count
        && a.link_count == b.link_count
        && nodes.all(|(a, b)| same_node(a, b))
        && declarations.all(|(a, b)| same_declaration(a, b))
        && links.all(|(a, b)| same_link(a, b))
}
