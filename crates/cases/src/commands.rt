// The steps that hand back a kernel: the fourteen commands, stop, and those that write it by hand.
use crate::state::State;
use crate::steps::{ByHand, Command};
use explain::Call;
use kernel::{Kernel, Outcome};
use model::Error;
use std::fmt;
use text::answers::Reply;
use text::made::port_of;
use text::words::Line;

// What is answered: that it is done; the identity that insert issued; how many records a compaction removed; how many commands stop took.
#[derive(Clone, Copy)]
pub enum Answer {
    Done(Result<(), Error>),
    Issued(Result<usize, Error>),
    Removed(Result<usize, Error>),
    Stopped(Result<usize, Error>),
}

impl fmt::Display for Answer {
    fn fmt<W: fmt::Write>(&self, f: &mut fmt::Formatter<W>) -> fmt::Result {
        match self {
            Answer::Done(answer) => write!(f, "{}", Reply(answer)),
            Answer::Issued(Ok(id)) => write!(f, "identity {id}"),
            Answer::Issued(refused) => write!(f, "{}", Reply(refused)),
            Answer::Removed(answer) => {
                write!(f, "{}, removed {}", Reply(answer), answer.unwrap_or(0))
            }
            Answer::Stopped(answer) => {
                write!(f, "{}, commands {}", Reply(answer), answer.unwrap_or(0))
            }
        }
    }
}

// The kernel handed back, and the answer.
#[derive(Clone, Copy)]
pub struct Done {
    pub kernel: Kernel,
    pub answer: Answer,
}

fn answered<T, F: FnOnce(Result<T, Error>) -> Answer>(outcome: Outcome<T>, answer: F) -> Done
    requires { F.IsAlwaysCallable answer }
{
    Done {
        kernel: outcome.kernel,
        answer: answer(outcome.answer),
    }
}

// The command with its operands, and the lists.
pub fn call_of(command: Command, state: &State, line: Line) -> Call {
    let [first, second, third, ..] = line.operands;
    let (id, port) = (first.id(), port_of(second, third));
    let State {
        dependencies,
        provisions,
        ..
    } = *state;
    match command {
        Command::Begin => Call::Begin { id },
        Command::Finish => Call::Finish { id },
        Command::Leave => Call::Leave { id },
        Command::LeaveIfChanged => Call::LeaveIfChanged { id },
        Command::Retire => Call::Retire { id },
        Command::BeginCleanup => Call::BeginCleanup { id },
        Command::FinishCleanup => Call::FinishCleanup { id },
        Command::Remove => Call::Remove { id },
        Command::DeclareProvision => Call::DeclareProvision { id, port },
        Command::ReleaseProvision => Call::ReleaseProvision { id, port },
        Command::CompactBindings => Call::CompactBindings,
        Command::CompactDeclarations => Call::CompactDeclarations,
        Command::Insert => Call::Insert {
            parent: line.parent(first),
            dependencies,
            provisions,
        },
        Command::ConfigurePendingDependencies => {
            Call::ConfigurePendingDependencies { id, dependencies }
        }
    }
}

pub fn run(kernel: Kernel, call: Call) -> Done {
    match call {
        Call::Begin { id } => answered(kernel.begin(id), Answer::Done),
        Call::Finish { id } => answered(kernel.finish(id), Answer::Done),
        Call::Leave { id } => answered(kernel.leave(id), Answer::Done),
        Call::LeaveIfChanged { id } => answered(kernel.leave_if_changed(id), Answer::Done),
        Call::Retire { id } => answered(kernel.retire(id), Answer::Done),
        Call::BeginCleanup { id } => answered(kernel.begin_cleanup(id), Answer::Done),
        Call::FinishCleanup { id } => answered(kernel.finish_cleanup(id), Answer::Done),
        Call::Remove { id } => answered(kernel.remove(id), Answer::Done),
        Call::DeclareProvision { id, port } => {
            answered(kernel.declare_provision(id, port), Answer::Done)
        }
        Call::ReleaseProvision { id, port } => {
            answered(kernel.release_provision(id, port), Answer::Done)
        }
        Call::CompactBindings => answered(kernel.compact_bindings(), Answer::Removed),
        Call::CompactDeclarations => answered(kernel.compact_declarations(), Answer::Removed),
        Call::Insert {
            parent,
            dependencies,
            provisions,
        } => answered(
            kernel.insert(parent, dependencies, provisions),
            Answer::Issued,
        ),
        Call::ConfigurePendingDependencies { id, dependencies } => answered(
            kernel.configure_pending_dependencies(id, dependencies),
            Answer::Done,
        ),
    }
}

pub fn stop(kernel: Kernel) -> Done {
    answered(drain::stop(kernel), Answer::Stopped)
}

pub fn write(state: &State, how: ByHand, line: Line) -> Done {
    Done {
        kernel: state.written(how, line),
        answer: Answer::Done(Ok(())),
    }
}
