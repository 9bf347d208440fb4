// The loops that write a kernel's tables, each within its own: what is kept, what becomes dead.
#![tactic(auto)]

ghost use Rattle.std.specs.Prelude.{◌≡◌, Bool, map};
ghost use Rattle.edits.specs.Kept.{Answers, Retained};
ghost use Rattle.model.specs.Records.{dead_for};

use model::Link;

mod tables;

pub use tables::{Lent, Table, compact};

// The records of a table that pass a test, moved up within it; freed places are blanked. How many were kept.
pub fn retain<T: Copy, F: Fn(T) -> bool>(table: &mut [T], blank: T, keeps: F) -> usize
    requires { F.IsAlwaysCallable keeps }
    ensures { (p : T → Bool) → Answers (F.post keeps) p → Retained p blank table.old table.new result }
{
    let mut lent = Lent { records: table };
    compact(&mut lent, blank, keeps)
}

// The links of this consumer dead.
pub fn dead_links(links: &mut [Link], id: usize)
    ensures { links.new ≡ map (dead_for id) links.old }
{
    for l in links.iter_mut() {
        *l = records::dead_for(id, *l);
    }
}
