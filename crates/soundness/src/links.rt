// The links: whether each is sound, and each dependency of an installed owner has one.
ghost use Rattle.std.specs.Prelude.{◌≡◌, ◌≤◌, ◌<◌, ◌||◌, ◌&&◌, ℕ, true, false, length, get_or, replicate};
ghost use Rattle.model.specs.Lists.{all, any};
ghost use Rattle.model.specs.Records.{blank_declaration, is_blank_link};
ghost use Rattle.model.specs.Soundness.{is_covered, ordered};
ghost use Rattle.model.specs.Tables.{installed};
ghost use Rattle.loops.specs.Marks.{marked, meets, unmarked};
ghost use Rattle.loops.specs.Passes.{link_passes};
ghost use Rattle.sizes.specs.Sizes.{DECLARATIONS, IDENTITIES};

use crate::chains::Chains;
use crate::declarations::covered;
use model::{Declaration, Link, Node};
use sizes::{DECLARATIONS, IDENTITIES};

// Whether a link's ends are issued; a live link's ends installed, its provider serving and still of the link's generation, both declared its port, and its
// consumer is no provider of a live link so far: its provider is marked as seen, and its consumer's dependencies on the port as met.
fn link_ok(
    chains: &Chains<'_>,
    nodes: &[Node],
    link: Link,
    seen: &mut [bool; IDENTITIES],
    met: &mut [bool; DECLARATIONS],
) -> bool
    requires { length nodes.now ≤ IDENTITIES }
    ensures passes { result ≡ link_passes nodes.now chains.now.declarations.now link && unmarked (marked seen.old link) link }
    ensures seen { result ≡ true → seen.new ≡ marked seen.old link }
    ensures met { result ≡ true → (i : ℕ) → i < length chains.now.declarations.now → get_or met.new i false
        ≡ meets (get_or chains.now.declarations.now i blank_declaration) link || get_or met.old i false }
{
    let c = records::consumer_in(link);
    let p = records::provider_in(link);
    if c >= nodes.len() || p >= nodes.len() {
        return false;
    }
    if !link.live {
        return true;
    }
    let provider = nodes[p];
    let same = link.generation == provider.generation;
    if !(records::is_installed(nodes[c]) & records::is_serving(provider) & same) {
        return false;
    }
    let port = records::port_in(link);
    let wanted = chains.meet(c, port, met);
    let offered = chains.declares(p, port, true);
    seen[p] = true;
    wanted & offered & !seen[c]
}

// Whether each link is ok; the dependencies that a live link meets are marked.
fn each_ok(
    links: &[Link],
    chains: &Chains<'_>,
    nodes: &[Node],
    met: &mut [bool; DECLARATIONS],
) -> bool
    requires fits { length nodes.now ≤ IDENTITIES }
    requires none { met.old ≡ replicate DECLARATIONS false }
    ensures passes { result ≡ all (link_passes nodes.now chains.now.declarations.now) links.now && ordered links.now }
    ensures met { result ≡ true → (i : ℕ) → i < length chains.now.declarations.now → get_or met.new i false
        ≡ any (meets (get_or chains.now.declarations.now i blank_declaration)) links.now }
{
    let mut seen = [false; IDENTITIES];
    for link in links {
        if !link_ok(chains, nodes, *link, &mut seen, met) {
            return false;
        }
    }
    true
}

// Whether each of these links is blank: whether all their fields joined are, which is faster than one by one.
fn are_blank(links: &[Link]) -> bool
    ensures { result ≡ all is_blank_link links.now }
{
    let mut joined = records::blank_link();
    for l in links {
        joined = records::either_link(joined, *l);
    }
    records::is_blank_link(joined)
}

// Whether each link is ok, each dependency of an installed owner has one, and the places behind are blank.
pub(crate) fn links_ok(links: &[Link], unused: &[Link], chains: &Chains<'_>, nodes: &[Node]) -> bool
    requires { length nodes.now ≤ IDENTITIES }
    ensures { let ds = chains.now.declarations.now in
        result ≡ all is_blank_link unused.now && (all (link_passes nodes.now ds) links.now && ordered links.now) && all (is_covered (installed nodes.now) links.now) ds }
{
    let mut met = [false; DECLARATIONS];
    are_blank(unused)
        && each_ok(links, chains, nodes, &mut met)
        && covered(chains.declarations, nodes, &met)
}
