// The declarations: whether each owner is issued, each port has one owner, and each dependency is met.
ghost use Rattle.std.specs.Prelude.{◌≡◌, ◌&&◌, ◌≤◌, ◌<◌, List, ℕ, false, get_or, length};
ghost use Rattle.model.specs.Lists.{all, any};
ghost use Rattle.model.specs.Records.{blank_declaration, is_blank_declaration};
ghost use Rattle.model.specs.Soundness.{has_owner, is_covered, same_owner};
ghost use Rattle.model.specs.Tables.{installed, present};
ghost use Rattle.model.specs.declared.records.Link.{Link};
ghost use Rattle.loops.specs.Marks.{meets};
ghost use Rattle.sizes.specs.Sizes.{DECLARATIONS};

use crate::chains::Chains;
use loops::bucket_of;
use model::{Declaration, Node};
use sizes::DECLARATIONS;

// Whether each owner is an issued identity.
#[tactic(auto, unfolding(model::specs::Soundness::has_owner))]
fn owners_issued(declarations: &[Declaration], issued: usize) -> bool
    ensures { result ≡ all (has_owner issued) declarations.now }
{
    declarations.iter().all(|d| records::owner_in(*d) < issued)
}

// Whether this identity is present.
#[tactic(auto, unfolding(model::specs::Tables::node_at))]
fn is_present(nodes: &[Node], id: usize) -> bool
    ensures { result ≡ present nodes.now id }
{
    id < nodes.len() && nodes[id].present
}

// Whether two declarations, if both are provisions of one port by present owners, have one owner.
#[tactic(auto, unfolding(model::specs::Soundness::same_owner))]
fn same_owner(nodes: &[Node], d: Declaration, e: Declaration) -> bool
    ensures { result ≡ same_owner (present nodes.now) d e }
{
    let owner = records::owner_in(d);
    let other = records::owner_in(e);
    let offered = d.provides & e.provides & is_present(nodes, owner) & is_present(nodes, other);
    let same = records::declared_port(d) == records::declared_port(e);
    !(offered & same) | (owner == other)
}

// Whether a declaration has one owner with each of those chained: only its port's chain is read.
fn one_provider(chains: &Chains<'_>, nodes: &[Node], d: Declaration) -> bool
    ensures { result ≡ all (same_owner (present nodes.now) d) chains.now.declarations.now }
{
    if !(d.provides & is_present(nodes, records::owner_in(d))) {
        return true;
    }
    let port = records::declared_port(d);
    let mut c = chains.by_port.first[bucket_of(0, port.key, port.realm)];
    while c > 0 {
        if !same_owner(nodes, d, chains.declarations[c - 1]) {
            return false;
        }
        c = chains.by_port.next[c - 1];
    }
    true
}

// Whether provisions of one port by present owners have one owner.
fn one_owner(chains: &Chains<'_>, nodes: &[Node]) -> bool
    ensures { let ds = chains.now.declarations.now in result ≡ all (λ d. all (same_owner (present nodes.now) d) ds) ds }
{
    chains
        .declarations
        .iter()
        .all(|d| one_provider(chains, nodes, *d))
}

// Whether this identity is installed.
#[tactic(auto, unfolding(model::specs::Tables::node_at))]
fn is_installed(nodes: &[Node], id: usize) -> bool
    ensures { result ≡ installed nodes.now id }
{
    id < nodes.len() && records::is_installed(nodes[id])
}

// Whether each dependency of an installed owner is met.
pub(crate) fn covered(
    declarations: &[Declaration],
    nodes: &[Node],
    met: &[bool; DECLARATIONS],
) -> bool
    requires { length declarations.now ≤ DECLARATIONS }
    ensures { (ls : List Link) → ((i : ℕ) → i < length declarations.now → get_or met.now i false ≡ any (meets (get_or declarations.now i blank_declaration)) ls)
        → result ≡ all (is_covered (installed nodes.now) ls) declarations.now }
{
    for (i, d) in declarations.iter().enumerate() {
        if !d.provides & is_installed(nodes, records::owner_in(*d)) & !met[i] {
            return false;
        }
    }
    true
}

// Whether each of these declarations is blank: whether all their fields joined are, which is faster than one by one.
fn are_blank(declarations: &[Declaration]) -> bool
    ensures { result ≡ all is_blank_declaration declarations.now }
{
    let mut joined = records::blank_declaration();
    for d in declarations {
        joined = records::either_declaration(joined, *d);
    }
    records::is_blank_declaration(joined)
}

// Whether each owner is issued, each port has one owner, and the places behind are blank.
pub(crate) fn declarations_ok(chains: &Chains<'_>, unused: &[Declaration], nodes: &[Node]) -> bool
    ensures { let ds = chains.now.declarations.now in
        result ≡ all is_blank_declaration unused.now && all (has_owner (length nodes.now)) ds && all (λ d. all (same_owner (present nodes.now) d) ds) ds }
{
    are_blank(unused) && owners_issued(chains.declarations, nodes.len()) && one_owner(chains, nodes)
}
