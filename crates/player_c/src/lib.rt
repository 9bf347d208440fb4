// The player's functions that are exported for Rust: each calls the player's of the same name, and promises the same.
#![tactic(auto)]

ghost use Rattle.std.specs.Prelude.{◌≤◌, length};
ghost use Rattle.player.specs.Played.{answers_of, fresh, turns};
ghost use Rattle.player.specs.Printed.{printed};
ghost use Rattle.text.specs.Written.{Puts};

// Plays all of the log from the empty kernel; answers[i] is the i-th answer. Gives how many were written.
#[unsafe(no_mangle)]
pub extern "C" fn nobrighi_play(log: &[u8], answers: &mut [u8]) -> usize
    ensures { Puts (answers_of (turns fresh log.now)) answers.old 0 answers.new result }
{
    player::nobrighi_play(log, answers)
}

// Writes what is printed of the log's first 65,536 bytes. Gives how many bytes were written.
#[unsafe(no_mangle)]
pub extern "C" fn nobrighi_print(log: &[u8], out: &mut [u8]) -> usize
    ensures { Puts (printed log.now) out.old 0 out.new result }
{
    player::nobrighi_print(log, out)
}

// Plays the log and writes a record after each command, also for an 11 or a 12, while 65,536 bytes of out are free.
// Gives how many bytes were written.
#[unsafe(no_mangle)]
pub extern "C" fn nobrighi_record(
    log: &[u8],
    questions: &[u8],
    every: usize,
    out: &mut [u8],
) -> usize
    ensures { result ≤ length out.old }
{
    player::nobrighi_record(log, questions, every, out)
}

// Plays the log and writes what is asked for after its commands, while 65,536 bytes of out are free. Gives how many bytes were written.
#[unsafe(no_mangle)]
pub extern "C" fn nobrighi_asked(log: &[u8], asked: &[u8], out: &mut [u8]) -> usize
    ensures { result ≤ length out.old }
{
    player::nobrighi_asked(log, asked, out)
}

// Plays the log, its answers in out, then so many times writes over their start what is said of its kernel. Gives how many bytes the last took.
#[unsafe(no_mangle)]
pub extern "C" fn nobrighi_times(
    log: &[u8],
    what: usize,
    id: usize,
    times: usize,
    out: &mut [u8],
) -> usize
    ensures { result ≤ length out.old }
{
    player::nobrighi_times(log, what, id, times, out)
}
