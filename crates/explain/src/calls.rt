// A command as a value.
use model::{Parent, Port, PortList};

// The fourteen commands, each with its operands.
#[derive(Clone, Copy)]
pub enum Call {
    Insert {
        parent: Parent,
        dependencies: PortList,
        provisions: PortList,
    },
    DeclareProvision {
        id: usize,
        port: Port,
    },
    ReleaseProvision {
        id: usize,
        port: Port,
    },
    ConfigurePendingDependencies {
        id: usize,
        dependencies: PortList,
    },
    Begin {
        id: usize,
    },
    Finish {
        id: usize,
    },
    Leave {
        id: usize,
    },
    LeaveIfChanged {
        id: usize,
    },
    Retire {
        id: usize,
    },
    BeginCleanup {
        id: usize,
    },
    FinishCleanup {
        id: usize,
    },
    Remove {
        id: usize,
    },
    CompactBindings,
    CompactDeclarations,
}
