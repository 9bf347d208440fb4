// Declarations for the ports of a list.
ghost use Rattle.std.specs.Prelude.{◌≡◌, ◌+◌, ◌<◌, ◌≤◌, length};
ghost use Rattle.sizes.specs.Sizes.{DECLARATIONS, IDENTITIES};
ghost use Rattle.kernel.specs.Ports.{BlankPast, appended};

use model::{Declaration, Port};
use sizes::DECLARATIONS;

// Behind the declarations below the count one of this owner for each port; how many there are then.
#[tactic(auto, using(crate::proofs::Laws::Ports::appended_next))]
pub(crate) fn append_ports(
    declarations: &mut [Declaration; DECLARATIONS],
    count: usize,
    owner: usize,
    ports: &[Port],
    provides: bool,
) -> usize
    requires named { owner < IDENTITIES }
    requires room { count + length ports.now ≤ DECLARATIONS }
    requires blank { BlankPast count declarations.old }
    ensures array { declarations.new ≡ appended count owner provides declarations.old ports.now }
    ensures counted { result ≡ count + length ports.now }
{
    for (i, port) in ports.iter().enumerate() {
        declarations[count + i] = records::declaration_of(owner, provides, *port);
    }
    count + ports.len()
}
