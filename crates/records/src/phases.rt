// The phases.
ghost use Rattle.std.specs.Prelude.{◌≡◌};
ghost use Rattle.model.specs.Records.{is_running};

use model::Phase;

// Loading or Active.
pub fn is_running(phase: Phase) -> bool
    ensures { result ≡ is_running phase }
{
    matches!(phase, Phase::Loading | Phase::Active)
}
