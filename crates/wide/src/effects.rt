// What each module-wide call does to the module part.
ghost use Rattle.std.specs.Prelude.{◌≡◌};
ghost use Rattle.wide.specs.Effects.{wide_effect};

use crate::calls::{WideCall, WideEffect};
use frame::layout::{RESOLUTION, STAMP, THRESHOLD};

pub fn effect_of(call: WideCall) -> WideEffect
    ensures { result ≡ wide_effect call }
{
    match call {
        WideCall::AdvanceStamp(ticks) => WideEffect::Advances(ticks),
        WideCall::ZeroStamp => WideEffect::Stores(STAMP, 0),
        WideCall::ReadStamp => WideEffect::Shows(STAMP),
        WideCall::WriteResolution(value) => WideEffect::Stores(RESOLUTION, value),
        WideCall::ReadResolution => WideEffect::Shows(RESOLUTION),
        WideCall::WriteThreshold(value) => WideEffect::Stores(THRESHOLD, value),
        WideCall::ReadThreshold => WideEffect::Shows(THRESHOLD),
    }
}
