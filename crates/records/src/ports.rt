// Ports and bindings, as callers see them.
ghost use Rattle.std.specs.Prelude.{◌≡◌};
ghost use Rattle.model.specs.Records.{binding_of, blank_binding, blank_port};

use model::{Binding, Port};

pub fn binding_of(port: Port, provider: usize) -> Binding
    ensures { result ≡ binding_of port provider }
{
    let Port { key, realm } = port;
    Binding {
        key,
        realm,
        provider,
    }
}

pub fn blank_port() -> Port
    ensures { result ≡ blank_port }
{
    Port { key: 0, realm: 0 }
}

pub fn blank_binding() -> Binding
    ensures { result ≡ blank_binding }
{
    binding_of(blank_port(), 0)
}
