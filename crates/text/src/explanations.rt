// The explanation of a command or a check in words: that it is accepted, or the refusal, its place and its test, and what the test found.
ghost use Rattle.std.specs.Prelude.{◌≡◌, ◌≤◌, length};
ghost use Rattle.std.specs.Bool.{OnTrue};
ghost use Rattle.text.specs.Explained.{explained_text, test_words};
ghost use Rattle.text.specs.Written.{Puts};

use crate::Text;
use crate::answers::RefusedLine;
use crate::status::{KeyRealm, Missing};
use model::{
    Binding, Error, LinkAt, ListKind, Measure, Measured, Place, Port, Refusal, Repeat, Witness,
};
use std::fmt;

// What a place's test says; its last stands for any further number.
fn test_said(place: Place, test: usize) -> &'static str
    ensures { result.now ≡ test_words place test }
{
    match (place, test) {
        (Place::Entry, _) => "the kernel is not sound",
        (Place::Lists, _) => "a list is over 32",
        (Place::Insertion, 1) => "64 identities are issued",
        (Place::Insertion, 2) => "the parent is absent",
        (Place::Insertion, 3) => "the parent is retired",
        (Place::Insertion, 4) => "a port is listed twice or taken",
        (Place::Insertion, _) => "declarations and both lists exceed 256",
        (Place::Identity, _) => "it is absent",
        (Place::DeclareProvision, 1) => "it is retired",
        (Place::DeclareProvision, 2) => "it is neither Loading, Active nor never begun",
        (Place::DeclareProvision, 3) => "another present component provides the port",
        (Place::DeclareProvision, _) => "declarations are 256",
        (Place::ReleaseProvision, _) => "a live link has this provider and port",
        (Place::ConfigurePendingDependencies, 1) => "it is retired",
        (Place::ConfigurePendingDependencies, 2) => "it has begun",
        (Place::ConfigurePendingDependencies, 3) => "list and remaining declarations exceed 256",
        (Place::ConfigurePendingDependencies, _) => "the list has a port twice",
        (Place::Begin, 1) => "it is not Inactive",
        (Place::Begin, 2) => "it is retired",
        (Place::Begin, 3) => "the generation is the largest",
        (Place::Begin, 4) => "there is no target",
        (Place::Begin, _) => "links and target exceed 512",
        (Place::Finish, 1) => "it is not Loading",
        (Place::Finish, _) => "there is no target",
        (Place::Leave, _) => "it is neither Loading nor Active",
        (Place::LeaveIfChanged, 1) => "it is neither Loading nor Active",
        (Place::LeaveIfChanged, _) => "there is a target",
        (Place::BeginCleanup, 1) => "it is not Unloading, or it is restoring",
        (Place::BeginCleanup, _) => "a live link has this provider",
        (Place::FinishCleanup, _) => "it is not restoring",
        (Place::Remove, 1) => "it is not retired, or not Inactive",
        (Place::Remove, _) => "a present component has it as parent",
    }
}

// A place's test with its number.
#[derive(Clone, Copy)]
struct Tested(Place, usize);

impl fmt::Display for Tested {
    ghost use Rattle.std.specs.Prelude.{Some};
    ghost use Rattle.text.specs.Explained.{test_text};

    ghost output = { λ t. Some (test_text t.0 t.1) };

    fn fmt<W: fmt::Write>(&self, f: &mut fmt::Formatter<W>) -> fmt::Result {
        let Tested(place, test) = *self;
        let said = test_said(place, test);
        write!(f, "place: {place}, test {test}, {said}")
    }
}

// A live link: its place, its consumer, its port and its provider.
#[derive(Clone, Copy)]
struct InWay(LinkAt);

impl fmt::Display for InWay {
    ghost use Rattle.std.specs.Prelude.{Some};
    ghost use Rattle.text.specs.Explained.{link_text};

    ghost output = { λ l. Some (link_text l.0) };

    fn fmt<W: fmt::Write>(&self, f: &mut fmt::Formatter<W>) -> fmt::Result {
        let LinkAt {
            place,
            consumer,
            binding,
        } = self.0;
        let port = KeyRealm(Port::from(binding));
        write!(
            f,
            "link {place}, consumer {consumer}, {port}, provider {}",
            binding.provider
        )
    }
}

// A listed port and who provides it.
#[derive(Clone, Copy)]
struct Clash(Binding);

impl fmt::Display for Clash {
    ghost use Rattle.std.specs.Prelude.{Some};
    ghost use Rattle.text.specs.Explained.{clash_text};

    ghost output = { λ c. Some (clash_text c.0) };

    fn fmt<W: fmt::Write>(&self, f: &mut fmt::Formatter<W>) -> fmt::Result {
        let port = KeyRealm(Port::from(self.0));
        write!(f, "{port} is provided by {}", self.0.provider)
    }
}

// Two places of a list with one port.
#[derive(Clone, Copy)]
struct SamePort(Repeat);

impl fmt::Display for SamePort {
    ghost use Rattle.std.specs.Prelude.{Some};
    ghost use Rattle.text.specs.Explained.{repeat_text};

    ghost output = { λ r. Some (repeat_text r.0) };

    fn fmt<W: fmt::Write>(&self, f: &mut fmt::Formatter<W>) -> fmt::Result {
        let Repeat {
            list,
            earlier,
            later,
        } = self.0;
        write!(f, "{list} {earlier} and {later} are the same port")
    }
}

// What was compared with its limit.
#[derive(Clone, Copy)]
struct Compared(Measured);

impl fmt::Display for Compared {
    ghost use Rattle.std.specs.Prelude.{Some};
    ghost use Rattle.text.specs.Explained.{measured_text};

    ghost output = { λ m. Some (measured_text m.0) };

    fn fmt<W: fmt::Write>(&self, f: &mut fmt::Formatter<W>) -> fmt::Result {
        let Measured { measure, number } = self.0;
        match measure {
            Measure::DependencyCount => write!(f, "{}, count {number}", ListKind::Dependencies),
            Measure::ProvisionCount => write!(f, "{}, count {number}", ListKind::Provisions),
            Measure::IdentityCount | Measure::DeclarationCount => write!(f, "count {number}"),
            Measure::DeclarationSum | Measure::LinkSum => write!(f, "sum {number}"),
            Measure::Generation => write!(f, "generation {number}"),
        }
    }
}

// What a test found.
#[derive(Clone, Copy)]
struct Found(Witness);

impl fmt::Display for Found {
    ghost use Rattle.std.specs.Prelude.{Some};
    ghost use Rattle.text.specs.Explained.{witness_text};

    ghost output = { λ w. Some (witness_text w.0) };

    fn fmt<W: fmt::Write>(&self, f: &mut fmt::Formatter<W>) -> fmt::Result {
        match self.0 {
            Witness::Nothing => Ok(()),
            Witness::Component(id) => write!(f, "component {id}"),
            Witness::Dependency(missing) => write!(f, "dependency {}", Missing(missing)),
            Witness::Link(link) => write!(f, "{}", InWay(link)),
            Witness::Child(id) => write!(f, "child {id}"),
            Witness::Clash(binding) => write!(f, "{}", Clash(binding)),
            Witness::Repeated(repeat) => write!(f, "{}", SamePort(repeat)),
            Witness::Number(measured) => write!(f, "{}", Compared(measured)),
        }
    }
}

// An explanation, its parts separated by this text: the refusal, its place and its test, and the witness; of an unsound kernel there is none.
#[derive(Clone, Copy)]
pub struct Explained<'a>(pub &'a Result<(), Refusal>, pub &'a str);

impl fmt::Display for Explained<'_> {
    ghost use Rattle.std.specs.Prelude.{Some};
    ghost use Rattle.text.specs.Explained.{explained_text};

    ghost output = { λ e. Some (explained_text e.0.now e.1.now) };

    fn fmt<W: fmt::Write>(&self, f: &mut fmt::Formatter<W>) -> fmt::Result {
        let Explained(explanation, between) = *self;
        let Err(refusal) = explanation else {
            return f.write_str("accepted");
        };
        let Refusal {
            error,
            place,
            test,
            witness,
        } = *refusal;
        let (refused, tested) = (RefusedLine(error), Tested(place, test));
        write!(f, "{refused}{between}{tested}")?;
        match witness {
            Witness::Nothing => Ok(()),
            _ => write!(f, "{between}witness: {}", Found(witness)),
        }
    }
}

impl Text<'_> {
    // An explanation as `Explained` prints it, with any bytes between its parts; says whether each part printed itself to its end.
    pub fn explanation(&mut self, explanation: &Result<(), Refusal>, between: &[u8]) -> bool
        ensures same_reference { self.new.bytes.ghost_name ≡ self.old.bytes.ghost_name }
        ensures same_length { length self.new.bytes.now ≡ length self.old.bytes.now }
        ensures upper_bound { self.new.len ≤ length self.old.bytes.now }
        ensures puts { OnTrue result (Puts (explained_text explanation.now between.now) self.old.bytes.now self.old.len self.new.bytes.now self.new.len) }
    {
        let Err(refusal) = explanation else {
            self.put(b"accepted");
            return true;
        };
        let Refusal {
            error,
            place,
            test,
            witness,
        } = *refusal;
        let refused = self.show(RefusedLine(error));
        self.put(between);
        let tested = self.show(Tested(place, test));
        if let Witness::Nothing = witness {
            return refused & tested;
        }
        self.put(between);
        self.put(b"witness: ");
        let found = self.show(Found(witness));
        refused & tested & found
    }
}

// A refusal by the log itself, as lines: a byte that is no command, a command without its operands, a port for a list that has so many.
#[derive(Clone, Copy)]
pub enum LogRefusal {
    Unknown,
    Cut,
    Full(usize),
}

impl fmt::Display for LogRefusal {
    ghost use Rattle.std.specs.Prelude.{Some};
    ghost use Rattle.text.specs.Explained.{log_refusal_text};

    ghost output = { λ r. Some (log_refusal_text r) };

    fn fmt<W: fmt::Write>(&self, f: &mut fmt::Formatter<W>) -> fmt::Result {
        match *self {
            LogRefusal::Unknown => f.write_str("refused 11\nplace: log, test 1, no such command"),
            LogRefusal::Cut => f.write_str("refused 12\nplace: log, test 2, the operands are cut"),
            LogRefusal::Full(count) => {
                let refused = RefusedLine(Error::Capacity);
                write!(
                    f,
                    "{refused}\nplace: log, test 3, the list is full\nwitness: count {count}"
                )
            }
        }
    }
}
