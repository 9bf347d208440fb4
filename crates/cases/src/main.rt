// Cases: files of lines, each a step on a kernel, played in the order of the arguments and answered.
//
// A line that is empty or starts with `#` is a heading and is written as it stands. Any other is a step: it is written, then a
// colon and its answer, `?` if it is not known. Numbers are decimal; a parent may be `-` for none.
// - new, and counts, node, decl, link with the operands that `tables` writes: the kernel written by hand.
// - keep, back: the kernel remembered and brought back. try STEP: the step's answer, and the kernel stays as it was.
// - why STEP, of a command or a check: accepted, or the refusal, the test that gives it and what the test found; the kernel and the lists stay.
// - dependencies, provisions COUNT KEY REALM STEP: so many more ports for the next insertion or configuration,
//   KEY/REALM first and each key further by STEP; the entries past the count have such ports too.
// - the fourteen commands, `insert PARENT` with both lists: `done`, `refused N`, `identity N`, how many records a compaction
//   removed; then whether the kernel differs from the one before in any field of any entry.
// - stop: its answer, how many commands it took, and whether the kernel differs.
// - check_insert, check_iteration, each observer by its name, sound, tables: the answer.
// - drain: its answer, the count, and each step; one past the count only if it is not blank.
// - affected: leave's answer, and who is hit.
// - observe: each question of the file that is the first argument.
// The kernel goes on from file to file.
#![tactic(auto)]

mod commands;
mod compare;
mod questions;
mod reasons;
mod state;
mod steps;

use commands::{Done, call_of};
use questions::{checked, holds, number, observed};
use state::State;
use steps::Step;
use text::answers::Reply;
use text::explanations::Explained;
use text::logs::{argument, argument_count, heading, open, read_full};
use text::out::Out;
use text::words::word;

// Ends the line of a step that hands back a kernel, and goes on from that.
fn replace(out: &mut Out<'_, &HostRuntime>, state: &mut State, done: Done) {
    let same = compare::same(&state.kernel, &done.kernel);
    state.kernel = done.kernel;
    let compared = if same { "unchanged" } else { "changed" };
    writeln!(out, " {}, {compared}", done.answer);
}

// The answer of a step, which goes on from the state that it leaves.
fn answer(out: &mut Out<'_, &HostRuntime>, state: &mut State, line: &[u8]) {
    let Some((step, line)) = steps::read(line) else {
        return writeln!(out, " ?");
    };
    match step {
        Step::Command(command) => {
            let call = call_of(command, state, line);
            if command.uses_lists() {
                state.use_up_lists();
            }
            replace(out, state, commands::run(state.kernel, call));
        }
        Step::Stop => replace(out, state, commands::stop(state.kernel)),
        Step::ByHand(how) => replace(out, state, commands::write(state, how, line)),
        Step::Setting(setting) => {
            state.set(setting, line);
            writeln!(out, " done");
        }
        Step::Test(test) => {
            let holds = holds(&state.kernel, test, line);
            writeln!(out, " {}", if holds { "yes" } else { "no" });
        }
        Step::Count(count) => writeln!(out, " {}", number(&state.kernel, count)),
        Step::Check(check) => writeln!(out, " {}", Reply(&checked(state, check, line))),
        Step::Observer(observer) => {
            write!(out, " ");
            observed(out, &state.kernel, observer, line);
            writeln!(out);
        }
    }
}

// The answer of the step after `try`: the kernel stays as it was.
fn tried(out: &mut Out<'_, &HostRuntime>, state: &mut State, line: &[u8]) {
    let kernel = state.kernel;
    answer(out, state, line);
    state.kernel = kernel;
}

// The answer of the step after `why`: the kernel and the lists stay as they were.
fn explained(out: &mut Out<'_, &HostRuntime>, state: &State, line: &[u8]) {
    let read = steps::read(line);
    match read.and_then(|(step, line)| reasons::explanation(state, step, line)) {
        Some(explanation) => writeln!(out, " {}", Explained(&explanation, "; ")),
        None => writeln!(out, " ?"),
    }
}

fn is_observe(line: &[u8]) -> bool {
    matches!(word(line, 0), b"observe")
}

fn is_heading(line: &[u8]) -> bool {
    matches!(line, [] | [b'#', ..]) || is_observe(line)
}

// The line, and its answer if it is a step.
fn step(out: &mut Out<'_, &HostRuntime>, state: &mut State, line: &[u8]) {
    out.write_through(line);
    if is_heading(line) {
        return out.write_through(b"\n");
    }
    out.write_through(b":");
    if let Some(line) = line.strip_prefix(b"try ") {
        tried(out, state, line);
    } else if let Some(line) = line.strip_prefix(b"why ") {
        explained(out, state, line);
    } else {
        answer(out, state, line);
    }
    out.flush();
}

// Each line of a text; what is behind the last line's end is left out.
fn play(out: &mut Out<'_, &HostRuntime>, state: &mut State, lines: &[u8]) {
    for line in lines.split_inclusive(|byte| *byte == b'\n') {
        if let [line @ .., b'\n'] = line {
            step(out, state, line);
        }
    }
}

// Each line of a file; after `observe` the questions.
fn play_file(out: &mut Out<'_, &HostRuntime>, state: &mut State, lines: &[u8], questions: &[u8]) {
    for line in lines.split_inclusive(|byte| *byte == b'\n') {
        if let [line @ .., b'\n'] = line {
            step(out, state, line);
            if is_observe(line) {
                play(out, state, questions);
            }
        }
    }
}

// A line with the name of the file that is argument i; gives its first bytes, none of a file that cannot be opened.
fn read_argument<'a>(rt: &HostRuntime, i: usize, lines: &'a mut [u8]) -> &'a [u8] {
    let mut name = [0; 4096];
    let name = argument(rt, i, &mut name);
    heading(rt, name);
    let Some(mut file) = open(rt, name) else {
        return &[];
    };
    let count = read_full(&mut file, lines);
    &lines[..count]
}

// The first 65,536 bytes of each file after the first, whose lines are the questions. A write that fails is passed over.
fn main(rt: HostRuntime) {
    let mut gathered = [0; 65536];
    let mut out = Out::new(&rt, &mut gathered);
    let mut questions = [0; 65536];
    let questions = read_argument(&rt, 1, &mut questions);
    let mut state = State::new();
    for i in 2..argument_count(&rt) {
        let mut lines = [0; 65536];
        let lines = read_argument(&rt, i, &mut lines);
        play_file(&mut out, &mut state, lines, questions);
    }
}
