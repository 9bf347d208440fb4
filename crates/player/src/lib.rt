// Logs of commands played on the kernel and printed, and the functions that player_c exports for Rust: three here, one in asked, one in times.
#![tactic(auto)]

ghost use Rattle.std.specs.Prelude.{◌≤◌, length};
ghost use Rattle.player.specs.Played.{answers_of, fresh, turns};
ghost use Rattle.player.specs.Printed.{printed};
ghost use Rattle.text.specs.Written.{Puts};

mod asked;
mod commands;
mod drains;
mod lists;
pub mod log;
mod observe;
mod printing;
pub mod put;
mod tables;
mod times;
mod turns;

pub use asked::nobrighi_asked;
pub use commands::{Player, play, start};
pub use drains::play_drain;
pub use printing::{lines, lines_buffer, print};
pub use times::nobrighi_times;

// Plays all of the log from the empty kernel; answers[i] is the i-th answer. Gives how many were written.
pub fn nobrighi_play(log: &[u8], answers: &mut [u8]) -> usize
    ensures { Puts (answers_of (turns fresh log.now)) answers.old 0 answers.new result }
{
    play(start(), log, answers).answered
}

// Writes what is printed of the log's first 65,536 bytes. Gives how many bytes were written.
pub fn nobrighi_print(log: &[u8], out: &mut [u8]) -> usize
    ensures { Puts (printed log.now) out.old 0 out.new result }
{
    print(log, out)
}

// Plays the log and writes a record after each command, also for an 11 or a 12, while 65,536 bytes of out are free: the answer, the detail and the tables,
// then the observers' answers if this command has a question. Gives how many bytes were written.
pub fn nobrighi_record(log: &[u8], questions: &[u8], every: usize, out: &mut [u8]) -> usize
    ensures { result ≤ length out.old }
{
    turns::each(log, out, |out, turn| {
        out.byte(turn.answer);
        tables::all(out, turn.player);
        observe::asked(out, turn.player, questions, every, turn.index);
    })
}
