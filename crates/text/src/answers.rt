// What commands, checks and observers answer, in words.
use model::{Error, Unresolved};
use results::{CommittedBindings, Identities, TargetBindings};
use sizes::{DECLARATIONS, IDENTITIES, LINKS};
use std::fmt;

// A command's or a check's answer: done, or refused with the refusal's number.
#[derive(Drop)]
pub struct Reply<'a, T>(pub &'a Result<T, Error>);

impl<T> fmt::Display for Reply<'_, T> {
    ghost use Rattle.std.specs.Prelude.{Some};
    ghost use Rattle.text.specs.Shown.{reply_text};

    ghost output = { λ r. Some (reply_text r.0.now) };

    fn fmt<W: fmt::Write>(&self, f: &mut fmt::Formatter<W>) -> fmt::Result {
        match self.0 {
            Ok(_) => f.write_str("done"),
            Err(error) => write!(f, "refused {}", u8::from(*error)),
        }
    }
}

// An answer by its number: 0 is done, any other a refusal.
#[derive(Clone, Copy)]
pub struct Answer(pub u8);

impl fmt::Display for Answer {
    ghost use Rattle.std.specs.Prelude.{Some};
    ghost use Rattle.text.specs.Shown.{answer_text};

    ghost output = { λ a. Some (answer_text a.0) };

    fn fmt<W: fmt::Write>(&self, f: &mut fmt::Formatter<W>) -> fmt::Result {
        match self.0 {
            0 => f.write_str("done"),
            number => write!(f, "refused {number}"),
        }
    }
}

// A refusal with its number and its name.
#[derive(Clone, Copy)]
pub struct RefusedLine(pub Error);

impl fmt::Display for RefusedLine {
    ghost use Rattle.std.specs.Prelude.{Some};
    ghost use Rattle.text.specs.Shown.{refused_line};

    ghost output = { λ r. Some (refused_line r.0) };

    fn fmt<W: fmt::Write>(&self, f: &mut fmt::Formatter<W>) -> fmt::Result {
        let error = self.0;
        write!(f, "refused {} {error}", u8::from(error))
    }
}

// What there is, or none.
#[derive(Clone, Copy)]
pub struct OrNone<T>(pub Option<T>);

impl<T: fmt::Display> fmt::Display for OrNone<T> {
    ghost use Rattle.text.specs.Shown.{or_none};

    ghost output = { λ o. or_none T.output o.0 };

    fn fmt<W: fmt::Write>(&self, f: &mut fmt::Formatter<W>) -> fmt::Result {
        match &self.0 {
            Some(there) => write!(f, "{there}"),
            None => f.write_str("none"),
        }
    }
}

// Members with a space between, or empty.
#[derive(Clone, Copy)]
pub struct List<'a, T>(pub &'a [T]);

impl<T: fmt::Display> fmt::Display for List<'_, T> {
    ghost use Rattle.text.specs.Shown.{list_text};

    ghost output = { λ l. list_text T.output l.0.now };

    fn fmt<W: fmt::Write>(&self, f: &mut fmt::Formatter<W>) -> fmt::Result {
        let [first, rest @ ..] = self.0 else {
            return f.write_str("empty");
        };
        write!(f, "{first}")?;
        for member in rest {
            write!(f, " {member}")?;
        }
        Ok(())
    }
}

#[derive(Clone, Copy)]
pub struct Ids<'a>(pub &'a Identities);

impl fmt::Display for Ids<'_> {
    ghost use Rattle.text.specs.Shown.{ids_text};

    ghost output = { λ l. ids_text l.0.now };

    fn fmt<W: fmt::Write>(&self, f: &mut fmt::Formatter<W>) -> fmt::Result {
        let end = self.0.count.min(IDENTITIES);
        write!(f, "{}", List(&self.0.ids[..end]))
    }
}

#[derive(Clone, Copy)]
pub struct Committed<'a>(pub &'a CommittedBindings);

impl fmt::Display for Committed<'_> {
    ghost use Rattle.text.specs.Shown.{committed_text};

    ghost output = { λ l. committed_text l.0.now };

    fn fmt<W: fmt::Write>(&self, f: &mut fmt::Formatter<W>) -> fmt::Result {
        let end = self.0.count.min(LINKS);
        write!(f, "{}", List(&self.0.bindings[..end]))
    }
}

// What target answers: the bindings, or none, and then which dependency is missing, if one is named.
#[derive(Clone, Copy)]
pub struct Target<'a>(pub &'a Result<TargetBindings, Option<Unresolved>>);

impl fmt::Display for Target<'_> {
    ghost use Rattle.text.specs.Shown.{target_text};

    ghost output = { λ t. target_text t.0.now };

    fn fmt<W: fmt::Write>(&self, f: &mut fmt::Formatter<W>) -> fmt::Result {
        match self.0 {
            Ok(found) => {
                let end = found.count.min(DECLARATIONS);
                write!(f, "{}", List(&found.bindings[..end]))
            }
            Err(Some(missing)) => write!(f, "none, {} {}", missing.port, missing.found),
            Err(None) => f.write_str("none"),
        }
    }
}
