// The test behind a refusal: what an explanation names.
use crate::{Binding, Error, Unresolved};

// The rows of the rules' table, by the place of their tests.
#[derive(Clone, Copy)]
pub enum Place {
    Entry,
    Lists,
    Insertion,
    Identity,
    DeclareProvision,
    ReleaseProvision,
    ConfigurePendingDependencies,
    Begin,
    Finish,
    Leave,
    LeaveIfChanged,
    BeginCleanup,
    FinishCleanup,
    Remove,
}

// The two lists that a command takes.
#[derive(Clone, Copy)]
pub enum ListKind {
    Dependencies,
    Provisions,
}

// What a test for 9 compares with its limit.
#[derive(Clone, Copy)]
pub enum Measure {
    DependencyCount,
    ProvisionCount,
    IdentityCount,
    DeclarationCount,
    DeclarationSum,
    LinkSum,
    Generation,
}

#[derive(Clone, Copy)]
pub struct Measured {
    pub measure: Measure,
    pub number: u64,
}

// A link by its place in the table.
#[derive(Clone, Copy)]
pub struct LinkAt {
    pub place: usize,
    pub consumer: usize,
    pub binding: Binding,
}

// A port that stands twice in a list, by its places there.
#[derive(Clone, Copy)]
pub struct Repeat {
    pub list: ListKind,
    pub earlier: usize,
    pub later: usize,
}

// What a test found: the component that the call names, of insert its parent; the first dependency that does not resolve, and why; the first live
// link in the way; the lowest present child; a listed port with the present owner that provides it; a port listed twice; what was compared with its
// limit; nothing.
#[derive(Clone, Copy)]
pub enum Witness {
    Nothing,
    Component(usize),
    Dependency(Unresolved),
    Link(LinkAt),
    Child(usize),
    Clash(Binding),
    Repeated(Repeat),
    Number(Measured),
}

// An explanation is Result<(), Refusal>: accepted, or the refusal, the row and the test that gave it, counted from 1 in the row, and what the test found.
#[derive(Clone, Copy)]
pub struct Refusal {
    pub error: Error,
    pub place: Place,
    pub test: usize,
    pub witness: Witness,
}
