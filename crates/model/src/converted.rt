// A refusal in the rules' number, and the port of a binding.
use crate::{Binding, Error, Port};

impl From<Error> for u8 {
    ghost use Rattle.std.specs.Prelude.{◌≡◌};
    ghost use Rattle.model.specs.Refusals.{number};

    ghost from_gives = { λ e n. n ≡ number e };

    fn from(error: Error) -> u8 {
        error as u8
    }
}

impl From<Binding> for Port {
    ghost use Rattle.std.specs.Prelude.{◌≡◌};
    ghost use Rattle.model.specs.Records.{port_of};

    ghost from_gives = { λ b p. p ≡ port_of b };

    fn from(binding: Binding) -> Port {
        let Binding { key, realm, .. } = binding;
        Port { key, realm }
    }
}
