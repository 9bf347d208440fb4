// Who is hit if a component leaves: plays a log, and writes a line for each other component that would lose its target, or leave's refusal.
#![tactic(auto)]

use text::answers::RefusedLine;
use text::asked::each_pair;
use text::logs::{About, last_answer, read_log};
use text::out::Out;
use text::status::Phases;

// The first 65,536 bytes of a file, as far as they can be read, played and asked about; of a file that cannot be opened nothing is.
fn ask(rt: &HostRuntime, name: &[u8], id: usize) {
    let program = b"affected";
    let about = About { program, name };
    let mut log = [0; 65536];
    let Some(read) = read_log(rt, name, &mut log) else {
        return about.tell_unopened(rt.stderr(), b" was not played, and nobody is listed");
    };
    let mut answers = [0; 65536];
    let played = player::play(player::start(), read.bytes, &mut answers);
    let last = last_answer(&answers, played.answered);
    about.tell(
        rt.stderr(),
        read,
        last,
        b" is answered as far as it was played",
    );
    let mut gathered = [0; 65536];
    let mut out = Out::new(rt, &mut gathered);
    match impact::affected(&played.kernel, id) {
        Ok(ids) => write!(out, "{}", Phases(&played.kernel, &ids)),
        Err(error) => writeln!(out, "{}", RefusedLine(error)),
    }
    out.flush();
}

// The arguments by pairs, a log and an identity. A write that fails is passed over.
fn main(rt: HostRuntime) {
    each_pair(
        &rt,
        rt.stderr(),
        b"affected",
        |name, _, id| ask(&rt, name, id),
    );
}
