// The stored records: read, made and tested for blanks here, so that how they are stored is said in one place. An identity takes one byte; only this file knows it.
ghost use Rattle.std.specs.Prelude.{◌≡◌, ◌&&◌};
ghost use Rattle.model.specs.Records.{binding_in, blank_declaration, blank_link, blank_node, byte_binding, byte_of, byte_parent, consumer_in, dead_for, dead_link, declaration_of, declared_port, is_blank_declaration, is_blank_link, is_blank_node, live_link, new_node, owner_in, parent_in, port_in, provider_in, provision, stored_parent, with_phase};

use model::{Binding, Declaration, Link, Node, Parent, Phase, Port, StoredParent};

// An identity in one byte: itself below 256, and 255, which is never issued, for any other number.
fn byte_of(id: usize) -> u8
    ensures { result ≡ byte_of id }
{
    if id < 256 { id as u8 } else { 255 }
}

fn stored_parent(parent: Parent) -> StoredParent
    ensures { result ≡ stored_parent (byte_parent parent) }
{
    match parent {
        Parent::None => StoredParent::None,
        Parent::Of(p) => StoredParent::Of(byte_of(p)),
    }
}

pub fn parent_in(node: Node) -> Parent
    ensures { result ≡ parent_in node }
{
    match node.parent {
        StoredParent::None => Parent::None,
        StoredParent::Of(p) => Parent::Of(p as usize),
    }
}

pub fn owner_in(declaration: Declaration) -> usize
    ensures { result ≡ owner_in declaration }
{
    declaration.owner as usize
}

pub fn declared_port(declaration: Declaration) -> Port
    ensures { result ≡ declared_port declaration }
{
    declaration.port
}

pub fn consumer_in(link: Link) -> usize
    ensures { result ≡ consumer_in link }
{
    link.consumer as usize
}

pub fn provider_in(link: Link) -> usize
    ensures { result ≡ provider_in link }
{
    link.provider as usize
}

pub fn port_in(link: Link) -> Port
    ensures { result ≡ port_in link }
{
    Port {
        key: link.key,
        realm: link.realm,
    }
}

pub fn binding_in(link: Link) -> Binding
    ensures { result ≡ binding_in link }
{
    Binding {
        key: link.key,
        realm: link.realm,
        provider: link.provider as usize,
    }
}

pub fn new_node(parent: Parent) -> Node
    ensures { result ≡ new_node (byte_parent parent) }
{
    Node {
        present: true,
        retired: false,
        phase: Phase::Inactive,
        restoring: false,
        parent: stored_parent(parent),
        generation: 0,
    }
}

pub fn with_phase(phase: Phase, node: Node) -> Node
    ensures { result ≡ with_phase phase node }
{
    Node { phase, ..node }
}

// A provision or a dependency.
pub fn declaration_of(owner: usize, provides: bool, port: Port) -> Declaration
    ensures { result ≡ declaration_of (byte_of owner) provides port }
{
    Declaration {
        port,
        owner: byte_of(owner),
        provides,
    }
}

pub fn provision(owner: usize, port: Port) -> Declaration
    ensures { result ≡ provision (byte_of owner) port }
{
    declaration_of(owner, true, port)
}

// A live link of this binding, with its provider's generation.
pub fn live_link(consumer: usize, binding: Binding, generation: u64) -> Link
    ensures { result ≡ live_link (byte_of consumer) (byte_binding binding) generation }
{
    Link {
        key: binding.key,
        realm: binding.realm,
        generation,
        consumer: byte_of(consumer),
        provider: byte_of(binding.provider),
        live: true,
    }
}

// A link of this consumer becomes dead, and keeps its generation; another stays.
pub fn dead_for(consumer: usize, mut link: Link) -> Link
    ensures { result ≡ dead_for consumer link }
{
    link.live &= consumer_in(link) != consumer;
    link
}

// The link, dead; it keeps its generation.
pub fn dead_link(link: Link) -> Link
    ensures { result ≡ dead_link link }
{
    Link {
        live: false,
        ..link
    }
}

pub fn blank_node() -> Node
    ensures { result ≡ blank_node }
{
    Node {
        present: false,
        retired: false,
        phase: Phase::Inactive,
        restoring: false,
        parent: StoredParent::None,
        generation: 0,
    }
}

pub fn blank_declaration() -> Declaration
    ensures { result ≡ blank_declaration }
{
    Declaration {
        port: crate::blank_port(),
        owner: 0,
        provides: false,
    }
}

pub fn blank_link() -> Link
    ensures { result ≡ blank_link }
{
    Link {
        key: 0,
        realm: 0,
        generation: 0,
        consumer: 0,
        provider: 0,
        live: false,
    }
}

pub fn is_blank_node(node: Node) -> bool
    ensures { result ≡ is_blank_node node }
{
    let inactive = node.phase == Phase::Inactive;
    let parentless = crate::no_parent(parent_in(node));
    !node.present & !node.retired & inactive & !node.restoring & parentless & (node.generation == 0)
}

pub fn is_blank_declaration(declaration: Declaration) -> bool
    ensures { result ≡ is_blank_declaration declaration }
{
    (declaration.owner == 0) & (declaration.port == crate::blank_port()) & !declaration.provides
}

pub fn is_blank_link(link: Link) -> bool
    ensures { result ≡ is_blank_link link }
{
    let words = (link.key == 0) & (link.realm == 0) & (link.generation == 0);
    words & (link.consumer == 0) & (link.provider == 0) & !link.live
}

// A declaration that is blank exactly when both are.
#[tactic(auto, using(model::proofs::Laws::Blanks::either_declaration_lem))]
pub fn either_declaration(a: Declaration, b: Declaration) -> Declaration
    ensures { is_blank_declaration result ≡ is_blank_declaration a && is_blank_declaration b }
{
    Declaration {
        port: Port {
            key: a.port.key | b.port.key,
            realm: a.port.realm | b.port.realm,
        },
        owner: a.owner | b.owner,
        provides: a.provides | b.provides,
    }
}

// A link that is blank exactly when both are.
#[tactic(auto, using(model::proofs::Laws::Blanks::either_link_lem))]
pub fn either_link(a: Link, b: Link) -> Link
    ensures { is_blank_link result ≡ is_blank_link a && is_blank_link b }
{
    Link {
        key: a.key | b.key,
        realm: a.realm | b.realm,
        generation: a.generation | b.generation,
        consumer: a.consumer | b.consumer,
        provider: a.provider | b.provider,
        live: a.live | b.live,
    }
}
