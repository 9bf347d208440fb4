// check_insert over two lent slices of ports.
#![tactic(auto)]

ghost use Rattle.std.specs.Prelude.{◌≡◌};
ghost use Rattle.kernel.specs.Fields.{ask};
ghost use Rattle.model.specs.Answers.{answer};
ghost use Rattle.model.specs.Insertion.{check_insert};
ghost use Rattle.model.specs.Interface.{port_list};
ghost use Rattle.model.specs.Refusals.{Reply};
ghost use Rattle.sizes.specs.Sizes.{sizes};

use kernel::Kernel;
use model::{Error, Parent, Port, PortList};

// The port list of a slice: at most 32 of its ports, and its own length, over 32 too.
pub fn port_list(ports: &[Port]) -> PortList
    ensures { result ≡ port_list ports.now }
{
    let kept = ports.len().min(32);
    let mut list = [records::blank_port(); 32];
    list[..kept].copy_from_slice(&ports[..kept]);
    PortList {
        ports: list,
        count: ports.len(),
    }
}

// check_insert of the two slices' port lists.
pub fn check_insert(
    kernel: &Kernel,
    parent: Parent,
    dependencies: &[Port],
    provisions: &[Port],
) -> Result<(), Error>
    ensures { result ≡ answer (ask kernel.now (Reply.refused Error.Damaged) (λ T. check_insert sizes T parent (port_list dependencies.now) (port_list provisions.now))) }
{
    kernel.check_insert(parent, port_list(dependencies), port_list(provisions))
}
