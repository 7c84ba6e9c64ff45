// The numbers of a line that tells what stands at an offset of a capture.
#![tactic(auto)]

ghost use Rattle.std.specs.Prelude.{◌≡◌};
ghost use Rattle.capture_lines.specs.Lines.{line_of, numbers_of, Lists};

use capture::kinds::Kind;
use capture::reading::Answer;

// A line by what it tells: it has as many numbers as that needs.
#[derive(Drop)]
pub enum Line {
    // The end, or a bad record.
    Last([u64; 3]),
    // An image; its commands follow.
    Image([u64; 4]),
    Arrival([u64; 6]),
}

impl Line {
    pub fn numbers(&self) -> &[u64]
        ensures { result.now ≡ numbers_of self.now }
    {
        match self {
            Line::Last(numbers) => numbers,
            Line::Image(numbers) => numbers,
            Line::Arrival(numbers) => numbers,
        }
    }
}

// The line for an answer, of any numbers; the bytes read begin `base` bytes into the capture.
#[tactic(auto, unfolding(crate::specs::Lines::line_of))]
pub fn line_of(base: u64, answer: Answer) -> Line
    ensures { Lists result (line_of base answer) }
{
    let offset = base.wrapping_add(answer.next.offset as u64);
    if answer.kind == 0 {
        return Line::Last([u64::from(answer.number), 0, offset]);
    }
    let kind = u64::from(answer.kind);
    if answer.kind == u32::from(Kind::Arrival) {
        return Line::Arrival([
            0,
            kind,
            offset,
            u64::from(answer.channel),
            u64::from(answer.word),
            u64::from(answer.stamp),
        ]);
    }
    Line::Image([0, kind, offset, u64::from(answer.channel)])
}
