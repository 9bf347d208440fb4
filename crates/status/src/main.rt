// The status that a log leaves: plays it, and writes a line for each present component.
#![tactic(auto)]

use text::logs::{About, LogRead, argument, argument_count, ended, last_answer, read_log};
use text::out::Out;
use text::status::Status;

// The first 65,536 bytes of a file, played.
fn show(rt: &HostRuntime, name: &[u8]) {
    let program = b"status";
    let about = About { program, name };
    let mut log = [0; 65536];
    let Some(LogRead { bytes, whole: true }) = read_log(rt, name, &mut log) else {
        return about.say(rt.stderr(), b" cannot be read");
    };
    let mut answers = [0; 65536];
    let played = player::play(player::start(), bytes, &mut answers);
    if let Some(what) = ended(last_answer(&answers, played.answered)) {
        about.say(rt.stderr(), what);
    }
    let mut gathered = [0; 65536];
    let mut out = Out::new(rt, &mut gathered);
    write!(out, "{}", Status(&played.kernel));
    out.flush();
}

// A write that fails is passed over.
fn main(rt: HostRuntime) {
    for i in 1..argument_count(&rt) {
        let mut name = [0; 4096];
        show(&rt, argument(&rt, i, &mut name));
    }
}
