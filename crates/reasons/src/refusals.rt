// Why a question is refused, and by which number.
ghost use Rattle.std.specs.Prelude.{◌≡◌, Some};
ghost use Rattle.reasons.specs.Refusals.{number_of};
ghost use Rattle.reasons.specs.Sentences.{sentence_of};

use std::fmt;

#[derive(Clone, Copy)]
pub enum Refusal {
    // The working memory has too few words for so many channels.
    TooShort,
    // The channel count is none of a module's.
    NoCount,
    TooManyItems,
    // An item is no call, or the last one is cut.
    NoCall,
    // No arrival stands at the place.
    NoArrival,
}

// The number of a refusal.
impl From<Refusal> for u32 {
    ghost from_gives = { λ refusal number. number ≡ number_of refusal };

    fn from(refusal: Refusal) -> u32 {
        match refusal {
            Refusal::TooShort => 1,
            Refusal::NoCount => 4,
            Refusal::NoArrival => 40,
            Refusal::TooManyItems => 41,
            Refusal::NoCall => calls::perform::NO_CALL,
        }
    }
}

// What it means, as a sentence, for one who prints by std's formats; `explain`, which prints piece by piece, has the same sentences.
impl fmt::Display for Refusal {
    ghost output = { λ refusal. Some (sentence_of refusal) };

    fn fmt<W: fmt::Write>(&self, f: &mut fmt::Formatter<W>) -> fmt::Result {
        f.write_str(match self {
            Refusal::TooShort => "The working memory is too short for that many channels.",
            Refusal::NoCount => "The channel count must be 1 to 12.",
            Refusal::TooManyItems => "The list has more than 4096 calls.",
            Refusal::NoCall => "An item of the list is no call, or the last one is cut short.",
            Refusal::NoArrival => "There is no arrival at that place of the list.",
        })
    }
}

#[cfg(test)]
mod tests {
    use super::*;
    use std::test::Fail;

    // The sentences that the program `explain` writes.
    #[test]
    fn each_refusal_is_a_sentence(rt: HostRuntime) -> Result<(), Fail> {
        let sentences = [
            (
                Refusal::TooShort,
                "The working memory is too short for that many channels.",
            ),
            (Refusal::NoCount, "The channel count must be 1 to 12."),
            (Refusal::TooManyItems, "The list has more than 4096 calls."),
            (
                Refusal::NoCall,
                "An item of the list is no call, or the last one is cut short.",
            ),
            (
                Refusal::NoArrival,
                "There is no arrival at that place of the list.",
            ),
        ];
        for (refusal, sentence) in sentences {
            assert_eq!(rt; refusal.to_string(rt.alloc())?.as_str(), sentence);
        }
        Ok(())
    }
}
