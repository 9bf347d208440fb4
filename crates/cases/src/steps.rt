// The steps of a case, read by their names.
use text::words::{Line, word};

// The fourteen commands.
#[derive(Clone, Copy)]
pub enum Command {
    Begin,
    Finish,
    Leave,
    LeaveIfChanged,
    Retire,
    BeginCleanup,
    FinishCleanup,
    Remove,
    DeclareProvision,
    ReleaseProvision,
    CompactBindings,
    CompactDeclarations,
    Insert,
    ConfigurePendingDependencies,
}

impl Command {
    // Insert and configure_pending_dependencies use up the lists.
    pub fn uses_lists(self) -> bool {
        matches!(
            self,
            Command::Insert | Command::ConfigurePendingDependencies
        )
    }
}

// What writes a kernel by hand.
#[derive(Clone, Copy)]
pub enum ByHand {
    New,
    Back,
    Counts,
    Node,
    Declaration,
    Link,
}

// What sets the kernel to bring back, or a list of the next insertion or configuration.
#[derive(Clone, Copy)]
pub enum Setting {
    Keep,
    Dependencies,
    Provisions,
}

// What is yes or no.
#[derive(Clone, Copy)]
pub enum Test {
    Sound,
    Contains,
    Retired,
    CleanupStarted,
    DependencyDeclared,
    ProvisionReserved,
}

// What is a count.
#[derive(Clone, Copy)]
pub enum Count {
    BindingRecords,
    IdentitySlots,
    DeclarationRecords,
}

// What answers as a command does.
#[derive(Clone, Copy)]
pub enum Check {
    Insert,
    Iteration,
}

// The other questions.
#[derive(Clone, Copy)]
pub enum Observer {
    Phase,
    EpisodeGeneration,
    Ids,
    Children,
    Resolve,
    Target,
    Committed,
    LinkGeneration,
    Tables,
    Drain,
    Affected,
}

#[derive(Clone, Copy)]
pub enum Step {
    Command(Command),
    Stop,
    ByHand(ByHand),
    Setting(Setting),
    Test(Test),
    Count(Count),
    Check(Check),
    Observer(Observer),
}

// Each step's name, and how many operands it has.
const STEPS: [(&str, usize, Step); 46] = [
    ("begin", 1, Step::Command(Command::Begin)),
    ("finish", 1, Step::Command(Command::Finish)),
    ("leave", 1, Step::Command(Command::Leave)),
    (
        "leave_if_changed",
        1,
        Step::Command(Command::LeaveIfChanged),
    ),
    ("retire", 1, Step::Command(Command::Retire)),
    ("begin_cleanup", 1, Step::Command(Command::BeginCleanup)),
    ("finish_cleanup", 1, Step::Command(Command::FinishCleanup)),
    ("remove", 1, Step::Command(Command::Remove)),
    (
        "declare_provision",
        3,
        Step::Command(Command::DeclareProvision),
    ),
    (
        "release_provision",
        3,
        Step::Command(Command::ReleaseProvision),
    ),
    (
        "compact_bindings",
        0,
        Step::Command(Command::CompactBindings),
    ),
    (
        "compact_declarations",
        0,
        Step::Command(Command::CompactDeclarations),
    ),
    ("insert", 1, Step::Command(Command::Insert)),
    (
        "configure_pending_dependencies",
        1,
        Step::Command(Command::ConfigurePendingDependencies),
    ),
    ("stop", 0, Step::Stop),
    ("new", 0, Step::ByHand(ByHand::New)),
    ("back", 0, Step::ByHand(ByHand::Back)),
    ("counts", 3, Step::ByHand(ByHand::Counts)),
    ("node", 7, Step::ByHand(ByHand::Node)),
    ("decl", 5, Step::ByHand(ByHand::Declaration)),
    ("link", 7, Step::ByHand(ByHand::Link)),
    ("keep", 0, Step::Setting(Setting::Keep)),
    ("dependencies", 4, Step::Setting(Setting::Dependencies)),
    ("provisions", 4, Step::Setting(Setting::Provisions)),
    ("sound", 0, Step::Test(Test::Sound)),
    ("contains", 1, Step::Test(Test::Contains)),
    ("retired", 1, Step::Test(Test::Retired)),
    ("cleanup_started", 1, Step::Test(Test::CleanupStarted)),
    (
        "dependency_declared",
        3,
        Step::Test(Test::DependencyDeclared),
    ),
    ("provision_reserved", 3, Step::Test(Test::ProvisionReserved)),
    ("binding_records", 0, Step::Count(Count::BindingRecords)),
    ("identity_slots", 0, Step::Count(Count::IdentitySlots)),
    (
        "declaration_records",
        0,
        Step::Count(Count::DeclarationRecords),
    ),
    ("check_insert", 1, Step::Check(Check::Insert)),
    ("check_iteration", 1, Step::Check(Check::Iteration)),
    ("phase", 1, Step::Observer(Observer::Phase)),
    (
        "episode_generation",
        1,
        Step::Observer(Observer::EpisodeGeneration),
    ),
    ("ids", 0, Step::Observer(Observer::Ids)),
    ("children", 1, Step::Observer(Observer::Children)),
    ("resolve", 2, Step::Observer(Observer::Resolve)),
    ("target", 1, Step::Observer(Observer::Target)),
    ("committed", 1, Step::Observer(Observer::Committed)),
    (
        "link_generation",
        3,
        Step::Observer(Observer::LinkGeneration),
    ),
    ("tables", 0, Step::Observer(Observer::Tables)),
    ("drain", 0, Step::Observer(Observer::Drain)),
    ("affected", 1, Step::Observer(Observer::Affected)),
];

// The step of a line and its operands, if both are known.
pub fn read(line: &[u8]) -> Option<(Step, Line)> {
    let first = word(line, 0);
    let (_, count, step) = STEPS.iter().find(|(name, ..)| name.as_bytes() == first)?;
    Some((*step, Line::read(line, *count)?))
}
