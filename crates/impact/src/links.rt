// The live links, read for the list: who relies on the leaving component, and who relies on one that is not Active.
ghost use Rattle.std.specs.Prelude.{◌≡◌};
ghost use Rattle.impact.specs.Uses.{hit_of, uses_of};
ghost use Rattle.loops.specs.Columns.{flag};
ghost use Rattle.sizes.specs.Sizes.{IDENTITIES};

use model::{Link, Node};
use scans::flag_at;
use sizes::IDENTITIES;

// Of each identity: whether a live link of it has the leaving component as provider, and whether one has a provider that is not Active.
#[derive(Clone, Copy)]
pub(crate) struct Uses {
    pub relying: [bool; IDENTITIES],
    pub unserved: [bool; IDENTITIES],
}

// One pass over the links; providing tells who is Active.
#[tactic(auto, using(crate::proofs::Laws::Uses::seen_end))]
pub(crate) fn uses_of(links: &[Link], providing: &[bool; IDENTITIES], id: usize) -> Uses
    ensures { result ≡ uses_of (flag IDENTITIES providing.now) id links.now }
{
    let mut relying = [false; IDENTITIES];
    let mut unserved = [false; IDENTITIES];
    for l in links {
        let c = records::consumer_in(*l);
        if l.live & (c < IDENTITIES) {
            let p = records::provider_in(*l);
            relying[c] |= p == id;
            unserved[c] |= !flag_at(providing, p);
        }
    }
    Uses { relying, unserved }
}

// Who is hit: Loading or Active and not retired, relying on the leaving component and on none that is not Active.
#[tactic(auto, using(crate::proofs::Laws::Uses::hit_end))]
pub(crate) fn hit_flags(nodes: &[Node; IDENTITIES], uses: &Uses) -> [bool; IDENTITIES]
    ensures { result ≡ hit_of nodes.now uses.now }
{
    let mut hit = [false; IDENTITIES];
    for (i, node) in nodes.iter().enumerate() {
        let stays = records::must_leave(*node) & !node.retired;
        hit[i] = stays & uses.relying[i] & !uses.unserved[i];
    }
    hit
}
