// Insertion's row.
ghost use Rattle.std.specs.Prelude.{[], length, ltb, not, ◌+◌, ◌≡◌, ◌||◌, ◌∷◌};
ghost use Rattle.explain.specs.Explanations.{found_if, refusal, witnessed, tables_in};
ghost use Rattle.model.specs.Commands.{Command};
ghost use Rattle.model.specs.Explanation.{clash_named, explain, explained, is_witness, long_list, number, parent_named};
ghost use Rattle.model.specs.Insertion.{parent_present, parent_retired};
ghost use Rattle.model.specs.Interface.{too_long};
ghost use Rattle.sizes.specs.Sizes.{DECLARATIONS, sizes};

use crate::answers::{number_if, refused_if};
use crate::clashes::{clash_in, repeat_in};
use crate::entry::Sound;
use model::{Error, Measure, Parent, Place, Port, PortList, Refusal, Witness};
use sizes::{DECLARATIONS, IDENTITIES};

// Of two lists too long the dependencies.
fn long_list(dependencies: &PortList, provisions: &PortList) -> Option<Witness>
    ensures { result ≡ found_if (too_long dependencies.now || too_long provisions.now) (long_list dependencies.now provisions.now) }
{
    let wanted = dependencies.count;
    let offered = provisions.count;
    let long = number_if(32 < wanted, Measure::DependencyCount, wanted);
    long.or(number_if(32 < offered, Measure::ProvisionCount, offered))
}

// The tests of the parent, if there is one: present, and not retired.
#[tactic(auto, unfolding(model::specs::Explanation::explain, model::specs::Insertion::parent_present, model::specs::Insertion::parent_retired))]
fn parent_tested(sound: Sound, parent: Parent) -> Result<(), Refusal>
    ensures { let T = tables_in sound.entry.kernel.now in
        result ≡ explain ((not (parent_present T parent), refusal Error.Unknown Place.Insertion 2 (parent_named parent)) ∷ (parent_retired T parent, refusal Error.Retired Place.Insertion 3 (parent_named parent)) ∷ []) }
{
    let Parent::Of(id) = parent else {
        return Ok(());
    };
    let node = sound.node(id);
    let named = Witness::Component(id);
    let absent = (!node.present).then_some(named);
    refused_if(Error::Unknown, Place::Insertion, 2, absent)?;
    let retired = node.retired.then_some(named);
    refused_if(Error::Retired, Place::Insertion, 3, retired)
}

// The first repeat or clash of the provisions, or else the first repeat of the dependencies.
#[tactic(auto, using(crate::proofs::Laws::Scans::clash_witnessed))]
fn clash(sound: Sound, dependencies: &[Port], provisions: &[Port]) -> Option<Witness>
    ensures { result ≡ witnessed (clash_named (tables_in sound.entry.kernel.now) dependencies.now provisions.now) }
{
    clash_in(sound, provisions).or_else(|| repeat_in(dependencies))
}

// The tests of lists that are short enough: no clash, and room for their declarations.
#[tactic(auto, unfolding(model::specs::Explanation::explain))]
fn lists_tested(sound: Sound, dependencies: &[Port], provisions: &[Port]) -> Result<(), Refusal>
    ensures { let T = tables_in sound.entry.kernel.now in
        let met = clash_named T dependencies.now provisions.now in
        let sum = length T.declarations + length dependencies.now + length provisions.now in
        result ≡ explain ((is_witness met, refusal Error.Conflict Place.Insertion 4 met) ∷ (ltb DECLARATIONS sum, refusal Error.Capacity Place.Insertion 5 (number Measure.DeclarationSum sum)) ∷ []) }
{
    let met = clash(sound, dependencies, provisions);
    refused_if(Error::Conflict, Place::Insertion, 4, met)?;
    let sum = sound.declarations().len() + dependencies.len() + provisions.len();
    let over = number_if(DECLARATIONS < sum, Measure::DeclarationSum, sum);
    refused_if(Error::Capacity, Place::Insertion, 5, over)
}

// insert and check_insert.
#[tactic(auto, using(crate::proofs::Laws::Scans::naming), unfolding(model::specs::Explanation::explained, model::specs::Explanation::explain))]
pub(crate) fn insert(
    sound: Sound,
    parent: Parent,
    dependencies: PortList,
    provisions: PortList,
) -> Result<(), Refusal>
    ensures { result ≡ explained sizes (tables_in sound.entry.kernel.now) (Command.insert parent dependencies provisions) }
{
    let long = long_list(&dependencies, &provisions);
    refused_if(Error::Capacity, Place::Lists, 1, long)?;
    let issued = sound.nodes().len();
    let full = number_if(IDENTITIES <= issued, Measure::IdentityCount, issued);
    refused_if(Error::Capacity, Place::Insertion, 1, full)?;
    parent_tested(sound, parent)?;
    lists_tested(
        sound,
        &dependencies.ports[..dependencies.count],
        &provisions.ports[..provisions.count],
    )
}
