// Plays logs from standard input or from files, and prints a line for each command: its count from 0, a space, the answer.
#![tactic(auto)]

ghost use Rattle.std.specs.Prelude.{◌≡◌};
ghost use Rattle.player.specs.Printed.{printed};

use std::io::Read;
use text::logs::{About, LogRead, argument, argument_count, heading, read_log, read_open};

fn cannot_read(rt: &HostRuntime, name: &[u8]) {
    let program = b"play";
    About { program, name }.say(rt.stderr(), b" cannot be read");
}

// Writes what is printed of a log; that it is nothing else is what this program promises, since write_all itself promises nothing of the bytes.
fn write_printed(rt: &HostRuntime, log: &[u8], text: &[u8])
    requires { text.now ≡ printed log.now }
{
    let _ = rt.write_all(text);
}

fn play(rt: &HostRuntime, log: &[u8]) {
    let mut text = player::lines_buffer();
    let n = player::print(log, &mut text);
    write_printed(rt, log, &text[..n]);
}

// The first 65,536 bytes of what is open.
fn play_open(rt: &HostRuntime, file: &mut impl Read, name: &[u8]) {
    let mut log = [0; 65536];
    match read_open(file, &mut log) {
        LogRead { bytes, whole: true } => play(rt, bytes),
        _ => cannot_read(rt, name),
    }
}

// The first 65,536 bytes of a file, behind its name if there are several.
fn play_file(rt: &HostRuntime, name: &[u8], several: bool) {
    let mut log = [0; 65536];
    let Some(LogRead { bytes, whole: true }) = read_log(rt, name, &mut log) else {
        return cannot_read(rt, name);
    };
    if several {
        heading(rt, name);
    }
    play(rt, bytes);
}

// A write that fails is passed over.
fn main(rt: HostRuntime) {
    let count = argument_count(&rt);
    if count < 2 {
        play_open(&rt, &mut rt.stdin(), b"standard input");
    }
    for i in 1..count {
        let mut name = [0; 4096];
        play_file(&rt, argument(&rt, i, &mut name), 2 < count);
    }
}
