// The number of a refusal, and answers that are given on.
ghost use Rattle.std.specs.Prelude.{◌≡◌, ℕ};
ghost use Rattle.block.specs.Refusals.{refusal_number};
ghost use Rattle.channel_calls.specs.Answer.{Answer, accepted, answered_by};

use crate::calls::Reply;
use block::refusal::Refusal;

// What stands for a refusal: a case of the table, or any number.
pub trait Numbered: Copy {
    ghost number: { Self → ℕ };

    fn number(self) -> u32
        ensures { result ≡ number self };
}

// A case has its number of the table.
impl Numbered for Refusal {
    ghost number = { refusal_number };

    fn number(self) -> u32 {
        u32::from(self)
    }
}

// A number stands for itself.
impl Numbered for u32 {
    ghost number = { λ n. n };

    fn number(self) -> u32 {
        self
    }
}

// What a call answers: a reply, or a reply or a refusal.
pub trait Answered: Copy {
    ghost answered: { Self → Answer };

    // The answer of an accepted call.
    fn accepted(reply: Reply) -> Self
        ensures { answered result ≡ accepted reply };
}

impl Answered for Reply {
    ghost answered = { accepted };

    fn accepted(reply: Reply) -> Reply {
        reply
    }
}

impl<E: Numbered> Answered for Result<Reply, E> {
    ghost answered = { answered_by E.number };

    fn accepted(reply: Reply) -> Result<Reply, E> {
        Ok(reply)
    }
}
