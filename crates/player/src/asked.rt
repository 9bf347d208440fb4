// For Rust, what is asked of the kernels that a log's commands leave: drains, and who is hit if a component leaves.
ghost use Rattle.player.specs.Gathered.{Gathers};
ghost use Rattle.std.specs.Prelude.{◌≤◌, length};

use crate::commands::Player;
use crate::put::Bytes;
use crate::{drains, lists, log, turns};

// 1 asks for the drain, 2 for the drain that is played too, 3 for the list of each identity; anything else for nothing.
fn wanted(out: &mut Bytes, player: &Player, wanted: u8)
    ensures { Gathers out.old out.new }
{
    match wanted {
        1 => drains::drained(out, player, false),
        2 => drains::drained(out, player, true),
        3 => lists::all(out, &player.kernel),
        _ => {}
    }
}

// Plays the log and writes what is asked for after its commands, while 65,536 bytes of out are free. Gives how many bytes were written.
pub fn nobrighi_asked(log: &[u8], asked: &[u8], out: &mut [u8]) -> usize
    ensures { result ≤ length out.old }
{
    turns::each(log, out, |out, turn| {
        wanted(out, turn.player, log::byte_at(asked, turn.index));
    })
}
