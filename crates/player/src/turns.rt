// For Rust, something put behind each command of a log.
ghost use Rattle.player.specs.Gathered.{Gathers};
ghost use Rattle.std.specs.Prelude.{◌≤◌, length};

use crate::commands::{Player, start};
use crate::put::Bytes;

// So many bytes are free where the next command is played.
const ROOM: usize = 65536;

// A command that was played: the player behind it, its answer, and its number, from 0.
#[derive(Clone, Copy)]
pub struct Turn<'a> {
    pub player: &'a Player,
    pub answer: u8,
    pub index: usize,
}

// Plays the log command by command, also an 11 or a 12, while there is room, and puts something behind each. Gives how many bytes were put.
pub fn each<F: Fn(&mut Bytes, Turn)>(log: &[u8], out: &mut [u8], put: F) -> usize
    requires callable { F.IsAlwaysCallable put }
    requires gathers { (before : _) (turn : _) (after : _) → F.post put before turn tt after → Gathers before.now after.now }
    ensures { result ≤ length out.old }
{
    let mut out = Bytes::new(out);
    let mut player = start();
    for index in 0..log.len() {
        if out.free() < ROOM {
            break;
        }
        let Some(answer) = player.step(log) else {
            break;
        };
        let turn = Turn {
            player: &player,
            answer,
            index,
        };
        put(&mut out, turn);
        if 10 < answer {
            break;
        }
    }
    out.len()
}
