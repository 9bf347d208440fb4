// The part of a record that every command has: its detail, the counts and the records below them.
ghost use Rattle.player.specs.Gathered.{Gathers};
ghost use Rattle.std.specs.Prelude.{◌≡◌};
ghost use Rattle.player.specs.Log.{phase_number};

use crate::commands::Player;
use crate::put::Bytes;
use kernel::Kernel;
use model::{Declaration, Link, Node, Parent, Phase};

pub fn phase_number(phase: Phase) -> u8
    ensures { result ≡ phase_number phase }
{
    phase as u8
}

fn parent(out: &mut Bytes, parent: Parent)
    ensures { Gathers out.old out.new }
{
    out.optional(match parent {
        Parent::Of(id) => Some(id as u64),
        Parent::None => None,
    });
}

fn node(out: &mut Bytes, node: &Node)
    ensures { Gathers out.old out.new }
{
    out.flag(node.present);
    out.flag(node.retired);
    out.byte(phase_number(node.phase));
    out.flag(node.restoring);
    parent(out, records::parent_in(*node));
    out.word(node.generation);
}

fn declaration(out: &mut Bytes, declaration: &Declaration)
    ensures { Gathers out.old out.new }
{
    out.word(records::owner_in(*declaration) as u64);
    out.port(records::declared_port(*declaration));
    out.flag(declaration.provides);
}

fn link(out: &mut Bytes, link: &Link)
    ensures { Gathers out.old out.new }
{
    out.word(records::consumer_in(*link) as u64);
    out.binding(records::binding_in(*link));
    out.flag(link.live);
    out.word(link.generation);
}

// The counts and the records below them.
pub fn of(out: &mut Bytes, kernel: &Kernel)
    ensures { Gathers out.old out.new }
{
    out.half(kernel.node_count);
    out.half(kernel.declaration_count);
    out.half(kernel.link_count);
    for stored in kernel.nodes.iter().take(kernel.node_count) {
        node(out, stored);
    }
    for stored in kernel.declarations.iter().take(kernel.declaration_count) {
        declaration(out, stored);
    }
    for stored in kernel.links.iter().take(kernel.link_count) {
        link(out, stored);
    }
}

pub fn all(out: &mut Bytes, player: &Player)
    ensures { Gathers out.old out.new }
{
    out.word(player.detail);
    of(out, &player.kernel);
}
