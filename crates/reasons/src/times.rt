// For measuring: a log's next command explained, and played, many times.
ghost use Rattle.std.specs.Prelude.{◌≤◌, length};
ghost use Rattle.player.specs.Gathered.{Gathers};

use crate::explained::written;
use crate::said::{LogExplanation, call_of};
use explain::{Call, explain};
use player::put::Bytes;
use player::{Player, play, start};

// The player's next command, one of the kernel's.
fn next_call(player: &Player, log: &[u8]) -> Call {
    let (byte, operands) = log
        .get(player.at..)
        .and_then(|rest| rest.split_first())
        .unwrap_or((&0, &[]));
    call_of(player, *byte, operands)
}

// The next command played on a copy, if there is room for its answer.
fn played(out: &mut Bytes, player: &Player, log: &[u8], answers: &mut [u8])
    ensures { Gathers out.old out.new }
{
    let mut next = *player;
    next.play_on(log, answers);
    out.put(&answers[..next.answered]);
}

// What 0 is the player's next command explained, 1 the command, another number the copy that it is played on.
fn of_next(out: &mut Bytes, player: &Player, call: Call, log: &[u8], what: usize)
    ensures { Gathers out.old out.new }
{
    match what {
        0 => written(out, LogExplanation::Command(explain(&player.kernel, call))),
        1 => played(out, player, log, &mut [0]),
        _ => played(out, player, log, &mut []),
    }
}

// Plays as many of the log's commands as out has bytes, its answers in out, then so many times writes over their start what is said of the next one.
// Gives how many bytes the last took.
pub fn nobrighi_explain_times(log: &[u8], what: usize, times: usize, out: &mut [u8]) -> usize
    ensures { result ≤ length out.old }
{
    let player = play(start(), log, out);
    let call = next_call(&player, log);
    let mut written = 0;
    for _ in 0..times {
        let mut bytes = Bytes::new(out);
        of_next(&mut bytes, &player, call, log, what);
        written = bytes.len();
    }
    written
}
