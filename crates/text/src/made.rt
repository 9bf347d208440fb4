// Records made of a line's operands, in the order in which the tables are written, the first the record's place; port lists.
// A record stores an identity in one byte, so that from 256 on an operand becomes 255.
ghost use Rattle.std.specs.Prelude.{◌≡◌, []};
ghost use Rattle.model.specs.Interface.{port_list};
ghost use Rattle.text.specs.Made.{MorePorts, NodeFor, declaration_for, is_yes, link_for, parent_of, phase_at, port_for};
ghost use Rattle.text.specs.Operands.{has_dash, number_of};

use crate::words::{Line, Operand};
use model::{Declaration, Link, Node, Parent, Phase, Port, PortList};

pub fn identity_of(operand: u64) -> usize
    ensures { result ≡ operand }
{
    operand as usize
}

// The phase of this place among the four.
fn phase_at(place: u64) -> Phase
    ensures { result ≡ phase_at place }
{
    match place {
        0 => Phase::Inactive,
        1 => Phase::Loading,
        2 => Phase::Active,
        _ => Phase::Unloading,
    }
}

pub fn parent_of(none: bool, operand: u64) -> Parent
    ensures { result ≡ parent_of none operand }
{
    if none {
        Parent::None
    } else {
        Parent::Of(identity_of(operand))
    }
}

impl Operand {
    // The identity that an operand names.
    pub fn id(self) -> usize
        ensures { result ≡ number_of self }
    {
        identity_of(self.number())
    }

    fn is_yes(self) -> bool
        ensures { result ≡ is_yes (number_of self) }
    {
        self.number() == 1
    }
}

impl Line {
    fn has_dash(&self) -> bool
        ensures { result ≡ has_dash self.now }
    {
        self.operands
            .iter()
            .any(|operand| matches!(operand, Operand::Dash))
    }

    // The parent that an operand names; none in a line with `-`.
    pub fn parent(&self, id: Operand) -> Parent
        ensures { result ≡ parent_of (has_dash self.now) (number_of id) }
    {
        parent_of(self.has_dash(), id.number())
    }
}

pub fn port_of(key: Operand, realm: Operand) -> Port
    ensures { result ≡ port_for (number_of key) (number_of realm) }
{
    Port {
        key: key.number(),
        realm: realm.number(),
    }
}

// PLACE PRESENT RETIRED PHASE RESTORING PARENT GENERATION
pub fn node_of(line: Line) -> Node
    ensures { NodeFor line result }
{
    let [_, present, retired, phase, restoring, parent, generation] = line.operands;
    Node {
        present: present.is_yes(),
        retired: retired.is_yes(),
        phase: phase_at(phase.number()),
        restoring: restoring.is_yes(),
        generation: generation.number(),
        ..records::new_node(line.parent(parent))
    }
}

// PLACE OWNER KEY REALM PROVIDES
pub fn declaration_of(line: Line) -> Declaration
    ensures { result ≡ declaration_for line }
{
    let [_, owner, key, realm, provides, ..] = line.operands;
    records::declaration_of(owner.id(), provides.is_yes(), port_of(key, realm))
}

// PLACE CONSUMER KEY REALM PROVIDER LIVE GENERATION
pub fn link_of(line: Line) -> Link
    ensures { result ≡ link_for line }
{
    let [_, consumer, key, realm, provider, live, generation] = line.operands;
    let binding = records::binding_of(port_of(key, realm), provider.id());
    Link {
        live: live.is_yes(),
        ..records::live_link(consumer.id(), binding, generation.number())
    }
}

// The empty list.
#[tactic(auto, unfolding(model::specs::Lists::padded))]
pub fn no_ports() -> PortList
    ensures { result ≡ port_list [] }
{
    PortList {
        ports: [records::blank_port(); 32],
        count: 0,
    }
}

// COUNT KEY REALM STEP: so many more ports, KEY/REALM and then keys further by STEP; the entries past the count have such ports too.
pub fn more_ports(mut list: PortList, count: usize, mut key: u64, realm: u64, step: u64) -> PortList
    ensures { MorePorts list count key realm step result }
{
    for i in list.count..32 {
        list.ports[i] = Port { key, realm };
        key = key.wrapping_add(step);
    }
    list.count = list.count.wrapping_add(count);
    list
}
