// An answer as a list of numbers: the answer's number, then its values.
ghost use Rattle.std.specs.Prelude.{◌≡◌};
ghost use Rattle.arrival.specs.Arrival.{outcome};
ghost use Rattle.channel_calls.specs.Answer.{accepted, answered_by};
ghost use Rattle.channel_calls.specs.Answers.{numbers_of};
ghost use Rattle.registers.specs.Access.{access_numbers};
ghost use Rattle.calls.specs.Listed.{Lists};

use arrival::Arrival;
use channel_calls::calls::Reply;
use channel_calls::numbers::Numbered;
use registers::accesses::Access;

// The numbers in the first `count` words, and zeros behind them: a list that grows would need a heap, and there is none.
#[derive(Drop)]
pub struct Numbers {
    pub count: usize,
    pub words: [u32; 8],
}

// The number of an arrival's outcome: a function of this name, since docs/PROMISES.md names it.
pub fn outcome(arrival: Arrival) -> u32
    ensures { result ≡ outcome arrival }
{
    match arrival {
        Arrival::Ignored => 0,
        Arrival::Filtered => 1,
        Arrival::Appended => 2,
        Arrival::Dropped => 3,
        Arrival::Overwriting => 4,
        Arrival::AlreadyListed => 5,
    }
}

// The numbers of an access's answer. A refusal has its number and as many zeros as the access has values.
pub fn numbers_of<E: Numbered>(access: Access, answer: Result<Reply, E>) -> Numbers
    ensures { Lists result (access_numbers access (answered_by E.number answer)) }
{
    match answer {
        Err(refusal) => Numbers {
            count: 1 + answer_values::values(access),
            words: [refusal.number(), 0, 0, 0, 0, 0, 0, 0],
        },
        Ok(reply) => values_of(reply),
    }
}

// The numbers of a reply: 0, and its values.
fn values_of(reply: Reply) -> Numbers
    ensures { Lists result (numbers_of 0 (accepted reply)) }
{
    match reply {
        Reply::Done => Numbers {
            count: 1,
            words: [0, 0, 0, 0, 0, 0, 0, 0],
        },
        Reply::Value(x) => Numbers {
            count: 2,
            words: [0, x, 0, 0, 0, 0, 0, 0],
        },
        Reply::Waiting(mark, word) => Numbers {
            count: 3,
            words: [0, mark, word, 0, 0, 0, 0, 0],
        },
        Reply::Fates(a, r, c, o, t, s, d) => Numbers {
            count: 8,
            words: [0, a, r, c, o, t, s, d],
        },
        Reply::Arrived(arrival) => {
            let what = outcome(arrival);
            Numbers {
                count: 2,
                words: [0, what, 0, 0, 0, 0, 0, 0],
            }
        }
        Reply::Entry(status, word, stamp) => Numbers {
            count: 4,
            words: [0, status, word, stamp, 0, 0, 0, 0],
        },
        Reply::Stepped(output) => {
            let v = schedule::values(output);
            Numbers {
                count: 5,
                words: [0, v[0], v[1], v[2], v[3], 0, 0, 0],
            }
        }
    }
}
