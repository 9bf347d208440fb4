// The first repeat or clash of a list, in the order of lib.rs's scan.
ghost use Rattle.std.specs.Prelude.{[], ◌≡◌, length};
ghost use Rattle.explain.specs.Explanations.{found_if, witnessed, tables_in};
ghost use Rattle.model.specs.Explanation.{clash_from, clash_of, repeat_named, witness};
ghost use Rattle.model.specs.Explanation.{repeat_at as repeat_by};
ghost use Rattle.model.specs.Lists.{any, find_at};
ghost use Rattle.model.specs.Records.{same_port};
ghost use Rattle.model.specs.Resolution.{offers, resolve};
ghost use Rattle.model.specs.Tables.{present};
ghost use Rattle.model.specs.declared.explanation.ListKind.{ListKind};

use crate::entry::Sound;
use model::{Declaration, ListKind, Port, Repeat, Witness};

// A port behind these ones of its list, if it is one of them.
#[tactic(auto, using(crate::proofs::Laws::Found::searching))]
fn repeat_of(list: ListKind, ports: &[Port], port: Port) -> Option<Witness>
    ensures { result ≡ found_if (any (same_port port) ports.now) (witness (repeat_by list (length ports.now)) (find_at (same_port port) 0 ports.now)) }
{
    for (earlier, q) in ports.iter().enumerate() {
        if port == *q {
            return Some(Witness::Repeated(Repeat {
                list,
                earlier,
                later: ports.len(),
            }));
        }
    }
    None
}

// Whether this is a provision of the port by a present owner.
#[tactic(auto, unfolding(model::specs::Resolution::offers, model::specs::Tables::present))]
fn offers(sound: Sound, port: Port, d: Declaration) -> bool
    ensures { result ≡ offers (present (tables_in sound.entry.kernel.now).nodes) port d }
{
    d.provides && records::declared_port(d) == port && sound.node(records::owner_in(d)).present
}

// A port with the first present owner that provides it; whether that is Active is not asked.
#[tactic(auto, using(crate::proofs::Laws::Scans::owners))]
pub(crate) fn owner_of(sound: Sound, port: Port) -> Option<Witness>
    ensures { result ≡ witnessed (clash_of port (resolve (tables_in sound.entry.kernel.now) port)) }
{
    for d in sound.declarations() {
        if offers(sound, port, *d) {
            return Some(Witness::Clash(records::binding_of(port, records::owner_in(*d))));
        }
    }
    None
}

// The first repeat of a list of dependencies.
#[tactic(auto, using(crate::proofs::Laws::Scans::scanning))]
pub(crate) fn repeat_in(ports: &[Port]) -> Option<Witness>
    ensures { result ≡ witnessed (repeat_named ports.now) }
{
    for (later, port) in ports.iter().enumerate() {
        let repeat = repeat_of(ListKind::Dependencies, &ports[..later], *port);
        if repeat.is_some() {
            return repeat;
        }
    }
    None
}

// The first repeat or clash of a list of provisions. Port by port: the earlier places of the list, then the declarations.
#[tactic(auto, using(crate::proofs::Laws::Scans::scanning))]
pub(crate) fn clash_in(sound: Sound, ports: &[Port]) -> Option<Witness>
    ensures { result ≡ witnessed (clash_from ListKind.Provisions (resolve (tables_in sound.entry.kernel.now)) [] ports.now) }
{
    for (later, port) in ports.iter().enumerate() {
        let repeat = repeat_of(ListKind::Provisions, &ports[..later], *port);
        if repeat.is_some() {
            return repeat;
        }
        let clash = owner_of(sound, *port);
        if clash.is_some() {
            return clash;
        }
    }
    None
}
