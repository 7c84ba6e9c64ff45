// The async words of a card, written each before its step: pairs of numbers in one list, as docs/BENCH_CARDS.md has `judge` take them.
ghost use Rattle.std.specs.Prelude.{◌≡◌};
ghost use Rattle.bench_card.specs.Asyncs.{written, written_for, before};

use schedule::Place;

// An async word written: accepted where none waits, else refused by the rules.
fn written(word: u32, place: Place) -> Place
    ensures { result ≡ written word place }
{
    if place.waiting == 0 {
        return Place {
            waiting: 1,
            word,
            ..place
        };
    }
    place
}

// One write of the list: it goes to its own step.
fn written_for(step: u32, own: u32, word: u32, place: Place) -> Place
    ensures { result ≡ written_for step own word place }
{
    if own == step {
        return written(word, place);
    }
    place
}

// The writes before a step, in list order.
pub fn before(step: u32, asyncs: &[u32], place: Place) -> Place
    ensures { result ≡ before step asyncs.now place }
{
    let mut place = place;
    for write in asyncs.chunks_exact(2) {
        place = written_for(step, write[0], write[1], place);
    }
    place
}
