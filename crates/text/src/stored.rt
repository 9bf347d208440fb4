// The tables: the counts, then a line for each record below them.
use kernel::Kernel;
use model::{Binding, Declaration, Link, Node, Parent, Port};
use std::fmt;

// An identity, or a dash.
#[derive(Clone, Copy)]
struct Above(Parent);

impl fmt::Display for Above {
    fn fmt<W: fmt::Write>(&self, f: &mut fmt::Formatter<W>) -> fmt::Result {
        match self.0 {
            Parent::None => f.write_str("-"),
            Parent::Of(id) => write!(f, "{id}"),
        }
    }
}

// PRESENT RETIRED PHASE RESTORING PARENT GENERATION, where 1 is yes and 0 is no.
#[derive(Clone, Copy)]
struct NodeFields<'a>(&'a Node);

impl fmt::Display for NodeFields<'_> {
    fn fmt<W: fmt::Write>(&self, f: &mut fmt::Formatter<W>) -> fmt::Result {
        let node = *self.0;
        let (present, retired) = (u8::from(node.present), u8::from(node.retired));
        let restoring = u8::from(node.restoring);
        let above = Above(records::parent_in(node));
        let (phase, generation) = (node.phase, node.generation);
        write!(
            f,
            "{present} {retired} {phase} {restoring} {above} {generation}"
        )
    }
}

// OWNER KEY REALM PROVIDES
#[derive(Clone, Copy)]
struct DeclarationFields<'a>(&'a Declaration);

impl fmt::Display for DeclarationFields<'_> {
    fn fmt<W: fmt::Write>(&self, f: &mut fmt::Formatter<W>) -> fmt::Result {
        let declaration = *self.0;
        let owner = records::owner_in(declaration);
        let Port { key, realm } = records::declared_port(declaration);
        write!(
            f,
            "{owner} {key} {realm} {}",
            u8::from(declaration.provides)
        )
    }
}

// CONSUMER KEY REALM PROVIDER LIVE GENERATION
#[derive(Clone, Copy)]
struct LinkFields<'a>(&'a Link);

impl fmt::Display for LinkFields<'_> {
    fn fmt<W: fmt::Write>(&self, f: &mut fmt::Formatter<W>) -> fmt::Result {
        let link = *self.0;
        let consumer = records::consumer_in(link);
        let Binding {
            key,
            realm,
            provider,
        } = records::binding_in(link);
        let (live, generation) = (u8::from(link.live), link.generation);
        write!(f, "{consumer} {key} {realm} {provider} {live} {generation}")
    }
}

// The counts, then the records below them: nodes, declarations, links.
#[derive(Clone, Copy)]
pub struct Tables<'a>(pub &'a Kernel);

impl fmt::Display for Tables<'_> {
    fn fmt<W: fmt::Write>(&self, f: &mut fmt::Formatter<W>) -> fmt::Result {
        let kernel = self.0;
        let (nodes, declarations) = (kernel.node_count, kernel.declaration_count);
        let links = kernel.link_count;
        writeln!(f, "counts {nodes} {declarations} {links}")?;
        for (place, node) in kernel.nodes.iter().take(nodes).enumerate() {
            writeln!(f, "node {place} {}", NodeFields(node))?;
        }
        for (place, declaration) in kernel.declarations.iter().take(declarations).enumerate() {
            writeln!(f, "decl {place} {}", DeclarationFields(declaration))?;
        }
        for (place, link) in kernel.links.iter().take(links).enumerate() {
            writeln!(f, "link {place} {}", LinkFields(link))?;
        }
        Ok(())
    }
}
