// Plays logs of commands: an answer on a line for each command, then the tables, then a line for each present component.
#![tactic(auto)]

ghost use Rattle.std.specs.Prelude.{◌≡◌, take};
ghost use Rattle.player.specs.Played.{played};
ghost use Rattle.player.specs.Printed.{printed};

use std::io::Read;
use text::logs::{argument, argument_count, heading, open, read_full, reads_on};
use text::out::Out;
use text::status::Status;
use text::stored::Tables;

fn cannot_read(rt: &HostRuntime, name: &[u8]) {
    let stderr = rt.stderr();
    let _ = stderr.write_all(b"replay: cannot read ");
    let _ = stderr.write_all(name);
    let _ = stderr.write_all(b"\n");
}

// Writes what is printed of a log, as `play` does; that it is nothing else is what is promised, since write_all itself promises nothing of the bytes.
fn write_printed(rt: &HostRuntime, log: &[u8], text: &[u8])
    requires { text.now ≡ printed log.now }
{
    let _ = rt.write_all(text);
}

// Writes a line for each of the first answers, which are the log's.
fn write_answers(rt: &HostRuntime, log: &[u8], answers: &[u8], count: usize)
    requires { take count answers.now ≡ played log.now }
{
    let mut text = player::lines_buffer();
    let n = player::lines(&mut text, answers, count);
    write_printed(rt, log, &text[..n]);
}

// Plays the first 65,536 bytes of what is open.
fn replay(rt: &HostRuntime, file: &mut impl Read, name: &[u8]) {
    let mut log = [0; 65536];
    let n = read_full(file, &mut log);
    if !reads_on(file) {
        return cannot_read(rt, name);
    }
    let mut answers = [0; 65536];
    let played = player::play(player::start(), &log[..n], &mut answers);
    write_answers(rt, &log[..n], &answers, played.answered);
    let mut gathered = [0; 65536];
    let mut out = Out::new(rt, &mut gathered);
    write!(out, "{}{}", Tables(&played.kernel), Status(&played.kernel));
    out.flush();
}

fn replay_file(rt: &HostRuntime, name: &[u8]) {
    let Some(mut file) = open(rt, name) else {
        return cannot_read(rt, name);
    };
    heading(rt, name);
    replay(rt, &mut file, name);
}

// A write that fails is passed over.
fn main(rt: HostRuntime) {
    let count = argument_count(&rt);
    if count < 2 {
        replay(&rt, &mut rt.stdin(), b"standard input");
    }
    for i in 1..count {
        let mut name = [0; 4096];
        replay_file(&rt, argument(&rt, i, &mut name));
    }
}
