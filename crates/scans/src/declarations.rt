// What the interface commands and insertion ask of the declarations, the links and a port list.
ghost use Rattle.std.specs.Prelude.{◌≡◌, not, ◌&&◌, length};
ghost use Rattle.model.specs.Lists.{any, keep};
ghost use Rattle.model.specs.Soundness.{is_declaration};
ghost use Rattle.model.specs.Interface.{distinct, relies_on, remains};
ghost use Rattle.model.specs.Resolution.{offers};
ghost use Rattle.loops.specs.Columns.{flag};
ghost use Rattle.sizes.specs.Sizes.{IDENTITIES};

use crate::flag_at;
use model::{Declaration, Link, Port};
use sizes::IDENTITIES;

// Whether the table has a declaration of this owner and port, a provision or a dependency.
pub fn declares_in(declarations: &[Declaration], owner: usize, port: Port, provision: bool) -> bool
    ensures { result ≡ any (is_declaration owner port provision) declarations.now }
{
    declarations
        .iter()
        .any(|d| records::is_declaration(owner, port, provision, *d))
}

// Whether this is a provision of the port by a present owner; present tells who is.
#[tactic(auto, unfolding(model::specs::Resolution::offers))]
pub fn offers(present: &[bool; IDENTITIES], port: Port, d: Declaration) -> bool
    ensures { result ≡ offers (flag IDENTITIES present.now) port d }
{
    d.provides & (records::declared_port(d) == port) & flag_at(present, records::owner_in(d))
}

// Whether a present owner provides the port; present tells who is.
pub fn taken_in(declarations: &[Declaration], present: &[bool; IDENTITIES], port: Port) -> bool
    ensures { result ≡ any (offers (flag IDENTITIES present.now) port) declarations.now }
{
    declarations.iter().any(|d| offers(present, port, *d))
}

// Whether a live link has this provider and port.
pub fn relies_on(links: &[Link], id: usize, port: Port) -> bool
    ensures { result ≡ any (relies_on id port) links.now }
{
    links.iter().any(|l| records::relies_on(id, port, *l))
}

// Whether a list of provisions has no port twice and no port that a present owner provides: the scan ends at the first repeat or clash.
pub fn check_provisions(
    ports: &[Port],
    declarations: &[Declaration],
    present: &[bool; IDENTITIES],
) -> bool
    ensures { result ≡ distinct ports.now && not (any (λ p. any (offers (flag IDENTITIES present.now) p) declarations.now) ports.now) }
{
    let mut ok = true;
    'scan: for (i, p) in ports.iter().enumerate() {
        for q in &ports[i + 1..] {
            if p == q {
                ok = false;
                break 'scan;
            }
        }
        for d in declarations {
            if offers(present, *p, *d) {
                ok = false;
                break 'scan;
            }
        }
    }
    ok
}

// How many declarations are no dependencies of this owner.
pub fn remaining_in(declarations: &[Declaration], id: usize) -> usize
    ensures { result ≡ length (keep (remains id) declarations.now) }
{
    declarations
        .iter()
        .filter(|d| !records::is_dependency_of(id, **d))
        .count()
}
