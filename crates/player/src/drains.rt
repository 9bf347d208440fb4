// Drains: the steps as a log, and a drain with what stop hands back as bytes.
ghost use Rattle.player.specs.Gathered.{Gathers};
ghost use Rattle.std.specs.Prelude.{◌≤◌, length};

use crate::commands::Player;
use crate::put::Bytes;
use crate::tables;
use drain::Drain;
use model::{Error, Step, StepCommand};
use sizes::STEPS;

// A step's command in a log. The bytes are the log's own, so model's enum does not have them.
fn byte_of(command: StepCommand) -> u8 {
    match command {
        StepCommand::Leave => 0x06,
        StepCommand::BeginCleanup => 0x09,
        StepCommand::FinishCleanup => 0x0A,
    }
}

// The drain played on the player's kernel, by the kernel's own commands; answers[i] is the answer of step i.
pub fn play_drain(mut player: Player, drain: Drain, answers: &mut [u8]) -> Player
    ensures { result.answered ≤ length answers.old }
{
    let mut log = [0; 2 * STEPS];
    let mut steps = Bytes::new(&mut log);
    for step in drain.steps.iter().take(drain.count) {
        steps.byte(byte_of(step.command));
        steps.small(step.id);
    }
    let end = steps.len();
    player.at = 0;
    player.play_on(&log[..end], answers);
    player
}

// The drain, or one without steps where it is refused.
fn drain_or_none(drain: Result<Drain, Error>) -> Drain {
    let blank = Step {
        command: StepCommand::Leave,
        id: 0,
    };
    drain.unwrap_or(Drain {
        steps: [blank; STEPS],
        count: 0,
    })
}

// All 192 steps, those past the count too: a command byte and an identity for each.
fn steps(out: &mut Bytes, drain: &Drain)
    ensures { Gathers out.old out.new }
{
    for step in drain.steps.iter() {
        out.byte(byte_of(step.command));
        out.word(step.id as u64);
    }
}

// The drain played: how many answers, each of them, and the tables.
fn played(out: &mut Bytes, player: &Player, drain: Drain)
    ensures { Gathers out.old out.new }
{
    let mut answers = [0; STEPS];
    let played = play_drain(*player, drain, &mut answers);
    out.half(played.answered);
    out.put(&answers[..played.answered]);
    tables::of(out, &played.kernel);
}

// The drain of the player's kernel: its answer, its count and its steps, what stop hands back (its answer, its count and the tables) and, if asked, the drain
// played.
pub fn drained(out: &mut Bytes, player: &Player, play: bool)
    ensures { Gathers out.old out.new }
{
    let drain = drain::drain(&player.kernel);
    out.head(drain.map(|drain| drain.count));
    let drain = drain_or_none(drain);
    steps(out, &drain);
    let stopped = drain::stop(player.kernel);
    out.head(stopped.answer);
    tables::of(out, &stopped.kernel);
    if play {
        played(out, player, drain);
    }
}
