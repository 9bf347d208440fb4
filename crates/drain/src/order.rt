// The order in which components are cleaned.
ghost use Rattle.std.specs.Prelude.{◌≡◌, ◌≤◌, length};
ghost use Rattle.drain.specs.Order.{order_of};
ghost use Rattle.results.specs.Results.{identities};
ghost use Rattle.sizes.specs.Sizes.{LINKS};

use crate::uses::Uses;
use model::Link;
use results::Identities;
use sizes::IDENTITIES;

// Again and again the lowest that waits and that no link of one that waits relies on. The search goes on where it is, or goes back to the lowest
// that the last one freed.
pub(crate) fn cleaning_order(links: &[Link], serving: &[bool; IDENTITIES]) -> Identities
    requires { length links.now ≤ LINKS }
    ensures { result ≡ identities (order_of serving.now links.now) }
{
    let mut uses = Uses::of(links, *serving);
    let mut ids = [0; IDENTITIES];
    let mut count = 0;
    let mut i = 0;
    while i < IDENTITIES {
        if uses.waiting[i] & (uses.relied[i] == 0) {
            ids[count] = i;
            count += 1;
            i = uses.free(links, i);
        } else {
            i += 1;
        }
    }
    Identities { ids, count }
}
