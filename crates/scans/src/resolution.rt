// resolve, target, committed and the generation that a live link stores.
ghost use Rattle.std.specs.Prelude.{◌≡◌, ◌≤◌, length, map};
ghost use Rattle.model.specs.Answers.{as_option};
ghost use Rattle.model.specs.Observers.{link_generation};
ghost use Rattle.model.specs.Records.{is_providing};
ghost use Rattle.model.specs.Resolution.{owned, look_up, dependency_ports, bind_ports, committed};
ghost use Rattle.loops.specs.Columns.{flag};
ghost use Rattle.results.specs.Results.{target_bindings, committed_bindings};
ghost use Rattle.sizes.specs.Sizes.{DECLARATIONS, IDENTITIES, LINKS};

use crate::declarations::offers;
use crate::nodes::node_flags;
use crate::{NodeFlags, flag_at};
use model::{Declaration, Link, Node, Port, Resolution, Unresolved};
use results::{CommittedBindings, TargetBindings};
use sizes::{DECLARATIONS, IDENTITIES, LINKS};

// What is said of a present owner that provides the port: whether it is Active.
fn owned(flags: &NodeFlags, owner: usize) -> Resolution
    ensures { result ≡ owned (flag IDENTITIES flags.now.providing) owner }
{
    if flag_at(&flags.providing, owner) {
        Resolution::Provider(owner)
    } else {
        Resolution::NotActive(owner)
    }
}

// What looking up the port finds; the flags tell who is present, and who is Active too.
#[tactic(auto, using(crate::proofs::Slices::look_next, crate::proofs::Slices::look_hit, crate::proofs::Slices::look_end))]
pub fn resolve_in(declarations: &[Declaration], flags: &NodeFlags, port: Port) -> Resolution
    ensures { result ≡ look_up (flag IDENTITIES flags.now.present) (flag IDENTITIES flags.now.providing) declarations.now port }
{
    for d in declarations {
        if offers(&flags.present, port, *d) {
            return owned(flags, records::owner_in(*d));
        }
    }
    Resolution::NoOwner
}

// The binding of each dependency of a component, in declaration order; none at the first port that does not resolve, with the lookup's answer.
// Of more declarations than a kernel holds the first ones are read, and nothing is said.
pub fn target_in(
    declarations: &[Declaration],
    flags: &NodeFlags,
    id: usize,
) -> Result<TargetBindings, Option<Unresolved>>
    ensures { length declarations.now ≤ DECLARATIONS →
        result ≡ target_bindings (bind_ports (look_up (flag IDENTITIES flags.now.present) (flag IDENTITIES flags.now.providing) declarations.now) (dependency_ports declarations.now id)) }
{
    let declarations = &declarations[..DECLARATIONS.min(declarations.len())];
    let mut bindings = [records::blank_binding(); DECLARATIONS];
    let mut count = 0;
    for d in declarations {
        if records::is_dependency_of(id, *d) {
            let port = records::declared_port(*d);
            let found = resolve_in(declarations, flags, port);
            let Resolution::Provider(p) = found else {
                return Err(Some(Unresolved { port, found }));
            };
            bindings[count] = records::binding_of(port, p);
            count += 1;
        }
    }
    Ok(TargetBindings { bindings, count })
}

// The bindings of a consumer's live links, in link order. Of more links than a kernel holds the first ones are read, and nothing is said.
pub fn committed_in(links: &[Link], id: usize) -> CommittedBindings
    ensures { length links.now ≤ LINKS → result ≡ committed_bindings (committed links.now id) }
{
    let links = &links[..LINKS.min(links.len())];
    let mut bindings = [records::blank_binding(); LINKS];
    let mut count = 0;
    for l in links {
        let l = *l;
        if records::is_live_link_of(id, l) {
            bindings[count] = records::binding_in(l);
            count += 1;
        }
    }
    CommittedBindings { bindings, count }
}

// The generation of the first live link of this consumer and port.
#[tactic(auto, using(crate::proofs::Slices::find_next, crate::proofs::Slices::find_hit, crate::proofs::Slices::find_end))]
pub fn link_generation_in(links: &[Link], consumer: usize, port: Port) -> Option<u64>
    ensures { result ≡ as_option (link_generation links.now consumer port) }
{
    for l in links {
        if records::links_to(consumer, port, *l) {
            return Some(l.generation);
        }
    }
    None
}

// What looking up the port finds in a table, in one pass over the declarations.
pub fn resolve_table(
    nodes: &[Node; IDENTITIES],
    declarations: &[Declaration],
    port: Port,
) -> Resolution
    ensures { result ≡ look_up (flag IDENTITIES (map (λ n. n.present) nodes.now)) (flag IDENTITIES (map is_providing nodes.now)) declarations.now port }
{
    resolve_in(declarations, &node_flags(nodes), port)
}

// target_in on tables: the binding of each dependency of a component.
pub fn target_table(
    nodes: &[Node; IDENTITIES],
    declarations: &[Declaration],
    id: usize,
) -> Result<TargetBindings, Option<Unresolved>>
    ensures { length declarations.now ≤ DECLARATIONS →
        result ≡ target_bindings (bind_ports (look_up (flag IDENTITIES (map (λ n. n.present) nodes.now)) (flag IDENTITIES (map is_providing nodes.now)) declarations.now) (dependency_ports declarations.now id)) }
{
    target_in(declarations, &node_flags(nodes), id)
}
