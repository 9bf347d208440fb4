// Why a command of a log was refused: plays the log up to it, and writes the refusal, the test that gave it and what the test found, or that it was accepted.
#![tactic(auto)]

use player::{play, start};
use reasons::{LogExplanation, why_next};
use std::io;
use text::Text;
use text::asked::each_pair;
use text::explanations::{Explained, LogRefusal};
use text::logs::{About, last_answer, read_log};

// Says of a log that it has no command of this number.
fn no_command(rt: &HostRuntime, name: &[u8], word: &[u8]) -> io::Result<()> {
    let mut said = [0; 65536];
    let mut text = Text::new(&mut said);
    text.put(b"why: ");
    text.put(name);
    text.put(b" has no command ");
    text.put(word);
    text.put(b"\n");
    rt.stderr().write_all(text.as_bytes())
}

// Why of the command behind as many as the answers have room for; an 11 or a 12 is a log's last.
fn behind(log: &[u8], answers: &mut [u8]) -> LogExplanation {
    let player = play(start(), log, answers);
    if player.answered < answers.len() || 10 < last_answer(answers, answers.len()) {
        return LogExplanation::NoCommand;
    }
    why_next(&player, log)
}

// Why of the command with this number, counted from 0.
fn asked(log: &[u8], command: usize) -> LogExplanation {
    let mut answers = [0; 65536];
    match answers.get_mut(..command) {
        Some(answers) => behind(log, answers),
        None => LogExplanation::NoCommand,
    }
}

// The first 65,536 bytes of a file, as far as they can be read, played up to the command; of a file that cannot be opened nothing is.
fn ask(rt: &HostRuntime, name: &[u8], word: &[u8], command: usize) -> io::Result<()> {
    let program = b"why";
    let about = About { program, name };
    let mut log = [0; 65536];
    let Some(read) = read_log(rt, name, &mut log) else {
        about.tell_unopened(rt.stderr(), b" was not played, and nothing is explained");
        return Ok(());
    };
    let why = asked(read.bytes, command);
    about.tell(rt.stderr(), read, 0, b" is answered as far as it was read");
    match why {
        LogExplanation::NoCommand => no_command(rt, name, word),
        LogExplanation::Unknown => println!(rt; "{}", LogRefusal::Unknown),
        LogExplanation::Cut => println!(rt; "{}", LogRefusal::Cut),
        LogExplanation::Full(count) => println!(rt; "{}", LogRefusal::Full(count)),
        LogExplanation::Command(answer) => println!(rt; "{}", Explained(&answer, "\n")),
    }
}

// The arguments by pairs, a log and a command's number, counted from 0. A write that fails is passed over.
fn main(rt: HostRuntime) {
    each_pair(&rt, rt.stderr(), b"why", |name, word, command| {
        let _ = ask(&rt, name, word, command);
    });
}
