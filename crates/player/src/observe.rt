// The part of a record that some commands have: each observer's answer to a question.
ghost use Rattle.player.specs.Gathered.{Gathers};

use crate::commands::Player;
use crate::put::Bytes;
use crate::{log, tables};
use kernel::Kernel;
use model::{Binding, Port, Resolution, Unresolved};
use results::{Identities, TargetBindings};

// A question's length: an identity, FF for no parent, and a port.
const QUESTION: usize = 17;

// 1 and the Active provider, 2 and the present owner that is not Active, or 0 and 0.
fn resolution(out: &mut Bytes, answer: Resolution)
    ensures { Gathers out.old out.new }
{
    let (kind, id) = match answer {
        Resolution::Provider(id) => (1, id),
        Resolution::NotActive(id) => (2, id),
        Resolution::NoOwner => (0, 0),
    };
    out.byte(kind);
    out.word(id as u64);
}

// 1, the port and what looking it up answered, or 0.
fn unresolved(out: &mut Bytes, answer: Option<Unresolved>)
    ensures { Gathers out.old out.new }
{
    out.flag(answer.is_some());
    if let Some(Unresolved { port, found }) = answer {
        out.port(port);
        resolution(out, found);
    }
}

fn identities(out: &mut Bytes, list: Identities)
    ensures { Gathers out.old out.new }
{
    out.small(list.count);
    for id in list.ids.iter().take(list.count) {
        out.small(*id);
    }
}

// How many bindings, and each.
fn bindings(out: &mut Bytes, bindings: &[Binding], count: usize)
    ensures { Gathers out.old out.new }
{
    out.half(count);
    for binding in bindings.iter().take(count) {
        out.binding(*binding);
    }
}

// Whether there is a target, its bindings, and what is missing: with a target nothing is, without one there is no binding.
fn target(out: &mut Bytes, answer: Result<TargetBindings, Option<Unresolved>>)
    ensures { Gathers out.old out.new }
{
    out.flag(answer.is_ok());
    match answer {
        Ok(target) => {
            bindings(out, &target.bindings, target.count);
            unresolved(out, None);
        }
        Err(missing) => {
            bindings(out, &[], 0);
            unresolved(out, missing);
        }
    }
}

// The observers of one component.
fn component(out: &mut Bytes, kernel: &Kernel, id: usize)
    ensures { Gathers out.old out.new }
{
    out.flag(kernel.sound());
    out.flag(kernel.contains(id));
    out.byte(kernel.phase(id).map_or(255, tables::phase_number));
    out.flag(kernel.retired(id));
    out.flag(kernel.cleanup_started(id));
    out.optional(kernel.episode_generation(id));
}

fn counts(out: &mut Bytes, kernel: &Kernel)
    ensures { Gathers out.old out.new }
{
    out.half(kernel.binding_records());
    out.half(kernel.identity_slots());
    out.half(kernel.declaration_records());
}

// What is declared, and the lists of identities.
fn declared(out: &mut Bytes, kernel: &Kernel, id: usize, port: Port)
    ensures { Gathers out.old out.new }
{
    out.flag(kernel.dependency_declared(id, port));
    out.flag(kernel.provision_reserved(id, port));
    identities(out, kernel.ids());
    identities(out, kernel.children(id));
}

fn bound(out: &mut Bytes, kernel: &Kernel, id: usize, port: Port)
    ensures { Gathers out.old out.new }
{
    let committed = kernel.committed(id);
    resolution(out, kernel.resolve(port));
    target(out, kernel.target(id));
    bindings(out, &committed.bindings, committed.count);
    out.optional(kernel.link_generation(id, port));
}

// check_iteration of the identity, and check_insert of the pending lists under it, FF for no parent.
fn checks(out: &mut Bytes, player: &Player, question: &[u8])
    ensures { Gathers out.old out.new }
{
    let Player {
        kernel,
        dependencies,
        provisions,
        ..
    } = player;
    let parent = log::parent(question);
    out.byte(records::answer_number(kernel.check_iteration(log::identity(question))));
    out.byte(records::answer_number(kernel.check_insert(parent, *dependencies, *provisions)));
}

fn answers(out: &mut Bytes, player: &Player, question: &[u8])
    ensures { Gathers out.old out.new }
{
    let kernel = &player.kernel;
    let id = log::identity(question);
    let port = log::port_at(question, 1);
    component(out, kernel, id);
    counts(out, kernel);
    declared(out, kernel, id, port);
    bound(out, kernel, id, port);
    checks(out, player, question);
}

// Behind the command of this index 1 and the answers to its question, or 0 if it has none: one command in `every` has one, as far as there are questions.
pub fn asked(out: &mut Bytes, player: &Player, questions: &[u8], every: usize, index: usize)
    ensures { Gathers out.old out.new }
{
    let (questions, _) = questions.as_chunks::<QUESTION>();
    let question = questions
        .get(index)
        .filter(|_| index.checked_rem(every) == Some(0));
    out.flag(question.is_some());
    if let Some(question) = question {
        answers(out, player, question);
    }
}
