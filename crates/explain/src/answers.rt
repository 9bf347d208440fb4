// Refusals with the test that gave them.
ghost use Rattle.std.specs.Prelude.{◌≡◌};
ghost use Rattle.explain.specs.Explanations.{found_if, refusal, refused_by};
ghost use Rattle.model.specs.Explanation.{number as number_of};

use model::{Error, Measure, Measured, Place, Refusal, Witness};

pub(crate) fn refusal(error: Error, place: Place, test: usize, witness: Witness) -> Refusal
    ensures { result ≡ refusal error place test witness }
{
    Refusal {
        error,
        place,
        test,
        witness,
    }
}

// One test of a row, by what it found: it refuses where that is something.
pub(crate) fn refused_if(
    error: Error,
    place: Place,
    test: usize,
    found: Option<Witness>,
) -> Result<(), Refusal>
    ensures { result ≡ refused_by error place test found }
{
    match found {
        Some(witness) => Err(refusal(error, place, test, witness)),
        None => Ok(()),
    }
}

// What was compared with its limit, where it is past it.
pub(crate) fn number_if(past: bool, measure: Measure, number: usize) -> Option<Witness>
    ensures { result ≡ found_if past (number_of measure number) }
{
    past.then_some(Witness::Number(Measured {
        measure,
        number: number as u64,
    }))
}
