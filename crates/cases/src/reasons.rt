// Why a command or a check would be refused on the present kernel.
use crate::commands::call_of;
use crate::state::State;
use crate::steps::{Check, Step};
use explain::{explain, explain_check_insert, explain_check_iteration};
use model::Refusal;
use text::words::Line;

// The explanation, if the step is one of the fourteen commands or of the two checks.
pub fn explanation(state: &State, step: Step, line: Line) -> Option<Result<(), Refusal>> {
    let [first, ..] = line.operands;
    let State {
        kernel,
        dependencies,
        provisions,
        ..
    } = state;
    match step {
        Step::Command(command) => Some(explain(kernel, call_of(command, state, line))),
        Step::Check(Check::Insert) => {
            let parent = line.parent(first);
            Some(explain_check_insert(kernel, parent, *dependencies, *provisions))
        }
        Step::Check(Check::Iteration) => Some(explain_check_iteration(kernel, first.id())),
        _ => None,
    }
}
