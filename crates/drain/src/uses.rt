// The components that wait to be cleaned, and the live links: how many of them rely on each component, and those of each in a chain.
ghost use Rattle.std.specs.Prelude.{◌≡◌, ◌≤◌, true, length};
ghost use Rattle.drain.specs.Order.{waits};
ghost use Rattle.drain.specs.Uses.{Freed, Tracks};
ghost use Rattle.sizes.specs.Sizes.{LINKS};

use model::Link;
use sizes::{IDENTITIES, LINKS};

// Links count while their consumer waits. In the chains c stands for link c - 1, and 0 for none: the last link of a consumer, and from each the one
// before it.
#[derive(Clone, Copy)]
pub(crate) struct Uses {
    pub waiting: [bool; IDENTITIES],
    pub relied: [usize; IDENTITIES],
    pub first: [usize; IDENTITIES],
    pub next: [usize; LINKS],
}

impl Uses {
    // These wait; the links are counted by provider, and chained by consumer.
    #[tactic(auto, using(crate::proofs::Laws::Uses::counting_end))]
    pub(crate) fn of(links: &[Link], waiting: [bool; IDENTITIES]) -> Self
        requires { length links.now ≤ LINKS }
        ensures tracks { Tracks links.now result }
        ensures waiting { result.waiting ≡ waiting }
    {
        let mut uses = Uses {
            waiting,
            relied: [0; IDENTITIES],
            first: [0; IDENTITIES],
            next: [0; LINKS],
        };
        for (i, l) in links.iter().enumerate() {
            let c = records::consumer_in(*l);
            let p = records::provider_in(*l);
            if l.live & (c < IDENTITIES) & (p < IDENTITIES) {
                uses.relied[p] += usize::from(uses.waiting[c]);
                uses.next[i] = uses.first[c];
                uses.first[c] = i + 1;
            }
        }
        uses
    }

    // The component waits no more, and what it relies on is relied upon once less for each of its links: only its chain is read. Gives the lowest of
    // these that no link relies on any more, or the identity after this one where that is less.
    #[tactic(auto, using(crate::proofs::Laws::Uses::freeing_within, crate::proofs::Laws::Uses::walking_end))]
    pub(crate) fn free(&mut self, links: &[Link], id: usize) -> usize
        requires tracks { Tracks links.now self.old }
        requires waits { waits self.old.waiting id ≡ true }
        ensures { Freed links.now self.old self.new id result }
    {
        self.waiting[id] = false;
        let mut lowest = id + 1;
        let mut c = self.first[id];
        while 0 < c {
            let p = records::provider_in(links[c - 1]);
            let left = self.relied[p] - 1;
            self.relied[p] = left;
            if (left == 0) & (p < lowest) {
                lowest = p;
            }
            c = self.next[c - 1];
        }
        lowest
    }
}
