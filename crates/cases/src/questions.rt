// The checks and the observers, the tables, the drain, and who is hit if a component leaves.
use crate::state::State;
use crate::steps::{Check, Count, Observer, Test};
use drain::Drain;
use kernel::Kernel;
use model::{Error, Step, StepCommand};
use results::Identities;
use text::answers::{Committed, Ids, OrNone, Reply, Target};
use text::made::port_of;
use text::out::Out;
use text::stored::Tables;
use text::words::Line;

pub fn holds(kernel: &Kernel, test: Test, line: Line) -> bool {
    let [first, second, third, ..] = line.operands;
    let (id, port) = (first.id(), port_of(second, third));
    match test {
        Test::Sound => kernel.sound(),
        Test::Contains => kernel.contains(id),
        Test::Retired => kernel.retired(id),
        Test::CleanupStarted => kernel.cleanup_started(id),
        Test::DependencyDeclared => kernel.dependency_declared(id, port),
        Test::ProvisionReserved => kernel.provision_reserved(id, port),
    }
}

pub fn number(kernel: &Kernel, count: Count) -> usize {
    match count {
        Count::BindingRecords => kernel.binding_records(),
        Count::IdentitySlots => kernel.identity_slots(),
        Count::DeclarationRecords => kernel.declaration_records(),
    }
}

pub fn checked(state: &State, check: Check, line: Line) -> Result<(), Error> {
    let State {
        kernel,
        dependencies,
        provisions,
        ..
    } = state;
    let [first, ..] = line.operands;
    match check {
        Check::Insert => kernel.check_insert(line.parent(first), *dependencies, *provisions),
        Check::Iteration => kernel.check_iteration(first.id()),
    }
}

// Whether the kernel is sound, then its tables.
fn tables(out: &mut Out<'_, &HostRuntime>, kernel: &Kernel) {
    let sound = if kernel.sound() { "sound" } else { "not sound" };
    write!(out, "{sound}\n{}", Tables(kernel));
}

fn is_blank(step: &Step) -> bool {
    matches!(step.command, StepCommand::Leave) && step.id == 0
}

// A drain's answer, its count and its steps, past the count those that are not blank; of a refusal none.
fn drained(out: &mut Out<'_, &HostRuntime>, drain: Result<Drain, Error>) {
    write!(out, "{}, steps", Reply(&drain));
    let Ok(drain) = drain else {
        return write!(out, " 0");
    };
    write!(out, " {}", drain.count);
    for (place, step) in drain.steps.iter().enumerate() {
        if place < drain.count || !is_blank(step) {
            write!(out, ", {step}");
        }
    }
}

// Leave's answer, and who is hit; of a refusal nobody.
fn hit(out: &mut Out<'_, &HostRuntime>, affected: Result<Identities, Error>) {
    write!(out, "{}, ", Reply(&affected));
    match affected {
        Ok(ids) => write!(out, "{}", Ids(&ids)),
        Err(_) => write!(out, "empty"),
    }
}

// The answer of an observer.
pub fn observed(out: &mut Out<'_, &HostRuntime>, kernel: &Kernel, observer: Observer, line: Line) {
    let [first, second, third, ..] = line.operands;
    let id = first.id();
    match observer {
        Observer::Phase => write!(out, "{}", OrNone(kernel.phase(id))),
        Observer::EpisodeGeneration => write!(out, "{}", OrNone(kernel.episode_generation(id))),
        Observer::Ids => write!(out, "{}", Ids(&kernel.ids())),
        Observer::Children => write!(out, "{}", Ids(&kernel.children(id))),
        Observer::Resolve => write!(out, "{}", kernel.resolve(port_of(first, second))),
        Observer::Target => write!(out, "{}", Target(&kernel.target(id))),
        Observer::Committed => write!(out, "{}", Committed(&kernel.committed(id))),
        Observer::LinkGeneration => {
            let generation = kernel.link_generation(id, port_of(second, third));
            write!(out, "{}", OrNone(generation));
        }
        Observer::Tables => tables(out, kernel),
        Observer::Drain => drained(out, drain::drain(kernel)),
        Observer::Affected => hit(out, impact::affected(kernel, id)),
    }
}
