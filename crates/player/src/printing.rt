// A log played from the empty kernel, and printed: a line for each command.
ghost use Rattle.std.specs.Prelude.{◌≡◌, ◌*◌, length, take};
ghost use Rattle.player.specs.Log.{log_limit};
ghost use Rattle.player.specs.Played.{played};
ghost use Rattle.player.specs.Printed.{lines_from, printed};
ghost use Rattle.player.specs.Printed.{line as line_of};
ghost use Rattle.player.specs.Shifts.{line_limit};
ghost use Rattle.text.specs.Written.{Puts};

use crate::commands::{play, start};
use crate::log::LIMIT;
use text::Text;

// What a log prints has at most this many bytes: a line for each of 65,536, with nine bytes each.
const LINES: usize = 589824;

// A buffer for all that a log prints. The `ensures` gives only the length, which lending it as a slice needs.
pub fn lines_buffer() -> [u8; LINES]
    ensures { line_limit * log_limit ≡ length result }
{
    [0; LINES]
}

// The answers of the first 65,536 bytes; gives how many were written.
pub fn play_log(log: &[u8], answers: &mut [u8]) -> usize
    ensures { Puts (played log.now) answers.old 0 answers.new result }
{
    play(start(), &log[..log.len().min(LIMIT)], answers).answered
}

// A count, a space, an answer.
fn line(text: &mut Text<'_>, count: usize, answer: u8)
    ensures same_reference { text.new.bytes.ghost_name ≡ text.old.bytes.ghost_name }
    ensures puts { Puts (line_of count answer) text.old.bytes.now text.old.len text.new.bytes.now text.new.len }
{
    text.number(count as u64);
    text.field(answer as u64);
    text.put(b"\n");
}

// A line for each of the first answers; gives the place behind them.
pub fn lines(out: &mut [u8], answers: &[u8], count: usize) -> usize
    ensures { Puts (lines_from 0 (take count answers.now)) out.old 0 out.new result }
{
    let mut text = Text::new(out);
    for (i, answer) in answers[..count.min(answers.len())].iter().enumerate() {
        line(&mut text, i, *answer);
    }
    text.len()
}

// The lines of a log's first 65,536 bytes; gives the place behind them.
pub fn print(log: &[u8], out: &mut [u8]) -> usize
    ensures { Puts (printed log.now) out.old 0 out.new result }
{
    let mut answers = [0; LIMIT];
    let count = play_log(log, &mut answers);
    lines(out, &answers, count)
}
