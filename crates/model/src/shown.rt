// Phases, refusals, ports, bindings, lookups, steps, places and lists as text.
use crate::{Binding, Error, ListKind, Phase, Place, Port, Resolution, Step, StepCommand};
use std::fmt;

impl fmt::Display for Phase {
    ghost use Rattle.std.specs.Prelude.{Some};
    ghost use Rattle.model.specs.Shown.{phase_name};

    ghost output = { λ p. Some (phase_name p) };

    fn fmt<W: fmt::Write>(&self, f: &mut fmt::Formatter<W>) -> fmt::Result {
        f.write_str(match self {
            Phase::Inactive => "Inactive",
            Phase::Loading => "Loading",
            Phase::Active => "Active",
            Phase::Unloading => "Unloading",
        })
    }
}

impl fmt::Display for Error {
    ghost use Rattle.std.specs.Prelude.{Some};
    ghost use Rattle.model.specs.Shown.{error_name};

    ghost output = { λ e. Some (error_name e) };

    fn fmt<W: fmt::Write>(&self, f: &mut fmt::Formatter<W>) -> fmt::Result {
        f.write_str(match self {
            Error::Unknown => "Unknown",
            Error::InvalidState => "InvalidState",
            Error::Retired => "Retired",
            Error::MissingDependency => "MissingDependency",
            Error::Conflict => "Conflict",
            Error::Changed => "Changed",
            Error::Relied => "Relied",
            Error::Children => "Children",
            Error::Capacity => "Capacity",
            Error::Damaged => "Damaged",
        })
    }
}

impl fmt::Display for Port {
    ghost use Rattle.std.specs.Prelude.{Some};
    ghost use Rattle.model.specs.Shown.{port_text};

    ghost output = { λ p. Some (port_text p) };

    fn fmt<W: fmt::Write>(&self, f: &mut fmt::Formatter<W>) -> fmt::Result {
        let Port { key, realm } = *self;
        write!(f, "{key}/{realm}")
    }
}

// KEY/REALM@PROVIDER.
impl fmt::Display for Binding {
    ghost use Rattle.std.specs.Prelude.{Some};
    ghost use Rattle.model.specs.Shown.{binding_text};

    ghost output = { λ b. Some (binding_text b) };

    fn fmt<W: fmt::Write>(&self, f: &mut fmt::Formatter<W>) -> fmt::Result {
        let Binding {
            key,
            realm,
            provider,
        } = *self;
        write!(f, "{key}/{realm}@{provider}")
    }
}

// The Active provider, a present owner that is not Active, or none.
impl fmt::Display for Resolution {
    ghost use Rattle.std.specs.Prelude.{Some};
    ghost use Rattle.model.specs.Shown.{resolution_text};

    ghost output = { λ r. Some (resolution_text r) };

    fn fmt<W: fmt::Write>(&self, f: &mut fmt::Formatter<W>) -> fmt::Result {
        match *self {
            Resolution::Provider(id) => write!(f, "{id}"),
            Resolution::NotActive(id) => write!(f, "not active {id}"),
            Resolution::NoOwner => f.write_str("no owner"),
        }
    }
}

impl fmt::Display for StepCommand {
    ghost use Rattle.std.specs.Prelude.{Some};
    ghost use Rattle.model.specs.Shown.{step_command_name};

    ghost output = { λ c. Some (step_command_name c) };

    fn fmt<W: fmt::Write>(&self, f: &mut fmt::Formatter<W>) -> fmt::Result {
        f.write_str(match self {
            StepCommand::Leave => "leave",
            StepCommand::BeginCleanup => "begin_cleanup",
            StepCommand::FinishCleanup => "finish_cleanup",
        })
    }
}

impl fmt::Display for Step {
    ghost use Rattle.std.specs.Prelude.{Some};
    ghost use Rattle.model.specs.Shown.{step_text};

    ghost output = { λ s. Some (step_text s) };

    fn fmt<W: fmt::Write>(&self, f: &mut fmt::Formatter<W>) -> fmt::Result {
        let Step { command, id } = *self;
        write!(f, "{command} {id}")
    }
}

// As the rules name it.
impl fmt::Display for Place {
    ghost use Rattle.std.specs.Prelude.{Some};
    ghost use Rattle.model.specs.Shown.{place_name};

    ghost output = { λ x. Some (place_name x) };

    fn fmt<W: fmt::Write>(&self, f: &mut fmt::Formatter<W>) -> fmt::Result {
        f.write_str(match self {
            Place::Entry => "entry",
            Place::Lists => "lists",
            Place::Insertion => "insertion",
            Place::Identity => "identity",
            Place::DeclareProvision => "declare_provision",
            Place::ReleaseProvision => "release_provision",
            Place::ConfigurePendingDependencies => "configure_pending_dependencies",
            Place::Begin => "begin",
            Place::Finish => "finish",
            Place::Leave => "leave",
            Place::LeaveIfChanged => "leave_if_changed",
            Place::BeginCleanup => "begin_cleanup",
            Place::FinishCleanup => "finish_cleanup",
            Place::Remove => "remove",
        })
    }
}

impl fmt::Display for ListKind {
    ghost use Rattle.std.specs.Prelude.{Some};
    ghost use Rattle.model.specs.Shown.{list_name};

    ghost output = { λ x. Some (list_name x) };

    fn fmt<W: fmt::Write>(&self, f: &mut fmt::Formatter<W>) -> fmt::Result {
        f.write_str(match self {
            ListKind::Dependencies => "dependencies",
            ListKind::Provisions => "provisions",
        })
    }
}
