// The steps of a drain, put behind each other in one array.
ghost use Rattle.std.specs.Prelude.{◌≡◌, ◌++◌, ◌∷◌, [], List, length, map, ◌+◌, ◌*◌, ◌<◌, ◌≤◌, take};
ghost use Rattle.drain.specs.Drains.{as_drain};
ghost use Rattle.model.specs.Drain.{cleanups, step_of};
ghost use Rattle.model.specs.declared.Step.{Step};
ghost use Rattle.sizes.specs.Sizes.{IDENTITIES, STEPS};

use model::{Step, StepCommand};
use results::Identities;
use sizes::STEPS;

// What drain answers: the steps and how many, blank past the count.
#[derive(Clone, Copy)]
pub struct Drain {
    pub steps: [Step; STEPS],
    pub count: usize,
}

#[tactic(auto, unfolding(model::specs::Lists::padded))]
pub(crate) fn no_steps() -> Drain
    ensures { result ≡ as_drain [] }
{
    let blank = Step {
        command: StepCommand::Leave,
        id: 0,
    };
    Drain {
        steps: [blank; STEPS],
        count: 0,
    }
}

impl Drain {
    // One step more.
    #[tactic(auto, using(crate::proofs::Laws::Steps::push_laid))]
    fn push(&mut self, command: StepCommand, id: usize)
        requires { self.old.count < STEPS }
        ensures counted { self.new.count ≡ self.old.count + 1 }
        ensures steps { (ss : List Step) → self.old ≡ as_drain ss → self.new ≡ as_drain (ss ++ (step_of command id ∷ [])) }
    {
        self.steps[self.count] = Step { command, id };
        self.count += 1;
    }

    // This command for each identity.
    pub(crate) fn append(&mut self, command: StepCommand, ids: &Identities)
        requires ids { ids.now.count ≤ IDENTITIES }
        requires room { self.old.count + ids.now.count ≤ STEPS }
        ensures counted { self.new.count ≡ self.old.count + ids.now.count }
        ensures steps { (ss : List Step) → self.old ≡ as_drain ss → self.new ≡ as_drain (ss ++ map (step_of command) (take ids.now.count ids.now.ids)) }
    {
        for id in &ids.ids[..ids.count] {
            self.push(command, *id);
        }
    }

    // begin_cleanup and finish_cleanup for each identity.
    pub(crate) fn append_cleanups(&mut self, ids: &Identities)
        requires ids { ids.now.count ≤ IDENTITIES }
        requires room { self.old.count + 2 * ids.now.count ≤ STEPS }
        ensures { (ss : List Step) → self.old ≡ as_drain ss → self.new ≡ as_drain (ss ++ cleanups (take ids.now.count ids.now.ids)) }
    {
        for id in &ids.ids[..ids.count] {
            self.push(StepCommand::BeginCleanup, *id);
            self.push(StepCommand::FinishCleanup, *id);
        }
    }
}
