// When a module-wide call is refused for its argument.
ghost use Rattle.std.specs.Prelude.{◌≡◌};
ghost use Rattle.block.specs.Refusals.{number_of};
ghost use Rattle.wide.specs.Effects.{place_of, PartWord};
ghost use Rattle.wide.specs.Refusals.{effect_refusal};

use crate::calls::WideEffect;
use block::refusal::Refusal;

// What is stored must be in the range of its word: arguments have the ranges of the stored numbers.
pub fn effect_refusal(effect: WideEffect) -> Result<(), Refusal>
    requires { PartWord (place_of effect) }
    ensures { number_of result ≡ effect_refusal effect }
{
    match effect {
        WideEffect::Shows(_) => Ok(()),
        WideEffect::Stores(at, value) => {
            if frame::refusals::in_part(at, value) {
                return Ok(());
            }
            Err(Refusal::Range)
        }
        WideEffect::Advances(_) => Ok(()),
    }
}
