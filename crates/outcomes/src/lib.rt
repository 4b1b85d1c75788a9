// What the tasks of a sweep came to: counted one by one, and told.
#![tactic(auto)]

ghost use Rattle.std.specs.Prelude.{◌≡◌};
ghost use Rattle.paper.specs.Answer.Cases.{SweepAnswer.Swept, answer_of, sweep_answer_by};
ghost use Rattle.outcomes.specs.Adding.{Growable, Added};

use paper::{Counts, Outcome, Refusal};

// How many tasks were idle so far, how many moved, and how many were held.
#[derive(Clone, Copy, PartialEq, Eq, Debug)]
pub struct Outcomes {
    pub idle: u32,
    pub moved: u32,
    pub held: u32,
}

// A refusal counts nowhere.
pub fn add(outcomes: Outcomes, answer: Result<Outcome, Refusal>) -> Outcomes
    requires { Growable outcomes }
    ensures { Added outcomes (answer_of answer) result }
{
    match answer {
        Err(_) => outcomes,
        Ok(Outcome::Idle) => Outcomes {
            idle: outcomes.idle + 1,
            ..outcomes
        },
        Ok(Outcome::Held) => Outcomes {
            held: outcomes.held + 1,
            ..outcomes
        },
        Ok(Outcome::Moved) => Outcomes {
            moved: outcomes.moved + 1,
            ..outcomes
        },
    }
}

// The answer to a sweep whose tasks have all run.
pub fn told(outcomes: Outcomes) -> Counts
    ensures { sweep_answer_by result ≡ Swept outcomes.idle outcomes.moved outcomes.held }
{
    Counts {
        idle: outcomes.idle,
        moved: outcomes.moved,
        held: outcomes.held,
    }
}
