// The status of a kernel in words: a line for each present component, or a shorter one for each of a list.
use crate::answers::OrNone;
use kernel::Kernel;
use model::{Port, Resolution, Unresolved};
use results::Identities;
use std::fmt;

#[derive(Clone, Copy)]
pub(crate) struct KeyRealm(pub(crate) Port);

impl fmt::Display for KeyRealm {
    ghost use Rattle.std.specs.Prelude.{Some};
    ghost use Rattle.text.specs.Shown.{key_realm};

    ghost output = { λ p. Some (key_realm p.0) };

    fn fmt<W: fmt::Write>(&self, f: &mut fmt::Formatter<W>) -> fmt::Result {
        let Port { key, realm } = self.0;
        write!(f, "key {key} realm {realm}")
    }
}

// A dependency that did not resolve: its port, and why.
#[derive(Clone, Copy)]
pub(crate) struct Missing(pub(crate) Unresolved);

impl fmt::Display for Missing {
    ghost use Rattle.std.specs.Prelude.{Some};
    ghost use Rattle.text.specs.Shown.{missing_text};

    ghost output = { λ m. Some (missing_text m.0) };

    fn fmt<W: fmt::Write>(&self, f: &mut fmt::Formatter<W>) -> fmt::Result {
        let port = KeyRealm(self.0.port);
        match self.0.found {
            Resolution::NotActive(id) => {
                write!(f, "{port}, which {id} provides but is not Active")
            }
            _ => write!(f, "{port}, which nobody provides"),
        }
    }
}

// A component's identity and its phase.
#[derive(Clone, Copy)]
struct Phased<'a>(&'a Kernel, usize);

impl fmt::Display for Phased<'_> {
    fn fmt<W: fmt::Write>(&self, f: &mut fmt::Formatter<W>) -> fmt::Result {
        let Phased(kernel, id) = *self;
        write!(f, "component {id}: {}", OrNone(kernel.phase(id)))
    }
}

// Its generation, whether it is retired and whether it is restoring, and what target gives; of a retired one no target.
#[derive(Clone, Copy)]
struct Further<'a>(&'a Kernel, usize);

impl fmt::Display for Further<'_> {
    fn fmt<W: fmt::Write>(&self, f: &mut fmt::Formatter<W>) -> fmt::Result {
        let Further(kernel, id) = *self;
        write!(f, "generation {}", OrNone(kernel.episode_generation(id)))?;
        if kernel.retired(id) {
            f.write_str(", retired")?;
        }
        if kernel.cleanup_started(id) {
            f.write_str(", restoring")?;
        }
        match kernel.target(id) {
            Ok(_) => f.write_str(", has its target"),
            Err(Some(first)) => write!(f, ", waits for {}", Missing(first)),
            Err(None) => Ok(()),
        }
    }
}

// A line for each present component, ascending.
#[derive(Clone, Copy)]
pub struct Status<'a>(pub &'a Kernel);

impl fmt::Display for Status<'_> {
    fn fmt<W: fmt::Write>(&self, f: &mut fmt::Formatter<W>) -> fmt::Result {
        let Identities { ids, count } = self.0.ids();
        for id in ids.iter().take(count) {
            writeln!(f, "{}, {}", Phased(self.0, *id), Further(self.0, *id))?;
        }
        Ok(())
    }
}

// A line for each component of a list: its phase.
#[derive(Clone, Copy)]
pub struct Phases<'a>(pub &'a Kernel, pub &'a Identities);

impl fmt::Display for Phases<'_> {
    fn fmt<W: fmt::Write>(&self, f: &mut fmt::Formatter<W>) -> fmt::Result {
        let Phases(kernel, list) = *self;
        for id in list.ids.iter().take(list.count) {
            writeln!(f, "{}", Phased(kernel, *id))?;
        }
        Ok(())
    }
}
