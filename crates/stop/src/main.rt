// A log's kernel stopped: plays the log, then the drain of the kernel that it leaves; a line for each command of the drain
// with its answer, then the tables.
#![tactic(auto)]

use player::Player;
use sizes::STEPS;
use text::logs::{About, argument, argument_count, last_answer, read_log};
use text::out::Out;
use text::stored::Tables;

// The drain of the player's kernel, played and written.
fn drained(rt: &HostRuntime, player: Player) {
    let mut gathered = [0; 65536];
    let mut out = Out::new(rt, &mut gathered);
    let mut kernel = player.kernel;
    if let Ok(drain) = drain::drain(&kernel) {
        let mut answers = [0; STEPS];
        let played = player::play_drain(player, drain, &mut answers);
        for (step, answer) in drain.steps.iter().zip(&answers).take(played.answered) {
            writeln!(out, "{step} {answer}");
        }
        kernel = played.kernel;
    }
    write!(out, "{}", Tables(&kernel));
    out.flush();
}

// The first 65,536 bytes of a file, as far as they can be read, played and drained; of a file that cannot be opened nothing is.
fn stop(rt: &HostRuntime, name: &[u8]) {
    let program = b"stop";
    let about = About { program, name };
    let mut log = [0; 65536];
    let Some(read) = read_log(rt, name, &mut log) else {
        return about.tell_unopened(rt.stderr(), b" was not played, and nothing is drained");
    };
    let mut answers = [0; 65536];
    let played = player::play(player::start(), read.bytes, &mut answers);
    let last = last_answer(&answers, played.answered);
    about.tell(
        rt.stderr(),
        read,
        last,
        b" is drained as far as it was played",
    );
    drained(rt, played);
}

// A write that fails is passed over.
fn main(rt: HostRuntime) {
    for i in 1..argument_count(&rt) {
        let mut name = [0; 4096];
        stop(&rt, argument(&rt, i, &mut name));
    }
}
