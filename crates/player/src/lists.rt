// Who is hit if a component leaves, as bytes: a list for each identity.
ghost use Rattle.player.specs.Gathered.{Gathers};

use crate::put::Bytes;
use kernel::Kernel;
use model::Error;
use results::Identities;
use sizes::IDENTITIES;

// The answer, the count and all 64 identities, those past the count too.
fn list(out: &mut Bytes, affected: Result<Identities, Error>)
    ensures { Gathers out.old out.new }
{
    out.head(affected.map(|hit| hit.count));
    for id in affected.map_or([0; IDENTITIES], |hit| hit.ids) {
        out.word(id as u64);
    }
}

// The list of each identity, and of one past the last.
pub fn all(out: &mut Bytes, kernel: &Kernel)
    ensures { Gathers out.old out.new }
{
    for id in 0..=IDENTITIES {
        list(out, impact::affected(kernel, id));
    }
}
