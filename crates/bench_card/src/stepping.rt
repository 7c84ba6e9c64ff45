// From one output of a schedule to the next.
ghost use Rattle.std.specs.Prelude.{◌≡◌, ◌+◌, ◌≤◌, ◌<◌, ◌^◌};
ghost use Rattle.schedule.specs.Codes.{commands, last};
ghost use Rattle.bench_card.specs.Given.{given};
ghost use Rattle.bench_card.specs.Run.{outcome_at, sends, next_output};

use crate::asyncs;
use crate::bench::Bench;
use schedule::{COMMANDS, Outcome, Output, Place, RUNNING};

// The next output, where the schedule stands behind it, and the step that comes then.
#[derive(Clone, Copy)]
pub struct Next {
    pub output: Output,
    pub place: Place,
    pub step: u32,
}

// Whether a command sent something.
fn sends(output: Output) -> bool
    ensures { result ≡ sends output }
{
    !matches!(output, Output::Quiet | Output::Reserved(_))
}

impl Bench<'_> {
    // One command, with the async writes for its step before it.
    #[tactic(auto, using(crate::proofs::Writes::before_address), unfolding(crate::specs::Run::outcome_at))]
    fn outcome_at(&self, step: u32, place: Place) -> Outcome
        requires { place.address ≤ last }
        ensures { result ≡ outcome_at (given self.now) step place }
    {
        schedule::step_at(
            self.schedule,
            self.messages,
            asyncs::before(step, self.asyncs, place),
            self.parity,
        )
    }

    // The next output, if one comes: of the commands in a row that send nothing as many are taken as there are addresses.
    pub fn next_output(&self, mut step: u32, mut place: Place) -> Option<Next>
        requires { (place.address ≤ last) × (step + commands < 2 ^ 32) }
        ensures { result ≡ next_output (given self.now) commands step place }
    {
        for _ in 0..COMMANDS {
            if place.state != RUNNING {
                return None;
            }
            let outcome = self.outcome_at(step, place);
            let output = outcome.output;
            place = outcome.place;
            step += 1;
            if sends(output) {
                return Some(Next {
                    output,
                    place,
                    step,
                });
            }
        }
        None
    }
}
