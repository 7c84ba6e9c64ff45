// What becomes of one arrival, followed from access to access.
ghost use Rattle.std.specs.Prelude.{◌≡◌, ◌<◌};
ghost use Rattle.channel_calls.specs.Answer.{accepted, answered_by};
ghost use Rattle.following.specs.Course.{most_held, held_before, level_after, gone, waiting_after, passed, entered_by, entered_with, arrived, next, reason_by};

use arrival::Arrival;
use block::modes::FIFO_MODE;
use channel_calls::calls::Reply;
use channel_calls::numbers::Numbered;
use receive_changes::Happening;
use registers::accesses::Access;

// Why a word was not there. A place is that of the call that did it.
#[derive(Clone, Copy)]
pub enum Reason {
    // No reason: no arrival, or none that was followed to its place. No option in its stead: `explain` would answer one whose none never comes
    // (`always_one_reason`).
    NoReason,
    // The number of the arrival's refusal, as the reason's two numbers give it.
    RefusedBy(u32),
    ReceiverOff,
    FilteredOut,
    DroppedOnFull,
    ListedAlready,
    StillHeld,
    ReadAt(u32),
    ClearedAt(u32),
    OverwrittenAt(u32),
}

#[derive(Drop)]
pub enum Course {
    // The arrival is to come: how many entries are held.
    Coming(u32),
    // The arrival's entry is held: how many are older.
    Waiting(u32),
    Known(Reason),
}

// The course so far, and the channel's receive mode: the number that a write of the setting gave, which may be any.
#[derive(Drop)]
pub struct Watch {
    pub mode: u32,
    pub course: Course,
}

// Behind the power-up.
pub fn begun() -> Watch
    ensures { result ≡ Rattle.following.specs.Course.begun }
{
    Watch {
        mode: FIFO_MODE,
        course: Course::Coming(0),
    }
}

// How many are held after it.
fn level_after(level: u32, happening: Happening) -> u32
    requires { level < most_held }
    ensures { result ≡ level_after level happening }
{
    match happening {
        Happening::Nothing => level,
        Happening::Enters => level + 1,
        Happening::EntersOverOldest => one_less(level) + 1,
        Happening::OldestRead => one_less(level),
        Happening::AllCleared => 0,
        Happening::AllBegun => 0,
    }
}

fn one_less(level: u32) -> u32
    ensures { result ≡ Rattle.following.specs.Course.one_less level }
{
    if level == 0 {
        return 0;
    }
    level - 1
}

// The oldest is gone: the entry itself, for this reason, or one of those ahead of it.
fn gone(ahead: u32, reason: Reason) -> Course
    ensures { result ≡ gone ahead reason }
{
    if ahead == 0 {
        return Course::Known(reason);
    }
    Course::Waiting(ahead - 1)
}

// The access at a place, with the entry held.
fn waiting_after(ahead: u32, happening: Happening, at: u32) -> Course
    ensures { result ≡ waiting_after ahead happening at }
{
    match happening {
        Happening::Nothing => Course::Waiting(ahead),
        Happening::Enters => Course::Waiting(ahead),
        Happening::EntersOverOldest => gone(ahead, Reason::OverwrittenAt(at)),
        Happening::OldestRead => gone(ahead, Reason::ReadAt(at)),
        Happening::AllCleared => Course::Known(Reason::ClearedAt(at)),
        Happening::AllBegun => Course::Known(Reason::ClearedAt(at)),
    }
}

// Another access than the arrival, at a place.
fn passed(course: Course, happening: Happening, at: u32) -> Course
    requires { held_before course < most_held }
    ensures { result ≡ passed course happening at }
{
    match course {
        Course::Coming(level) => Course::Coming(level_after(level, happening)),
        Course::Waiting(ahead) => waiting_after(ahead, happening, at),
        Course::Known(reason) => Course::Known(reason),
    }
}

// The arrival with its outcome, where so many are held.
fn entered_by(level: u32, outcome: Arrival) -> Course
    ensures { result ≡ entered_by level outcome }
{
    match outcome {
        Arrival::Ignored => Course::Known(Reason::ReceiverOff),
        Arrival::Filtered => Course::Known(Reason::FilteredOut),
        Arrival::Appended => Course::Waiting(level),
        Arrival::Dropped => Course::Known(Reason::DroppedOnFull),
        Arrival::Overwriting => Course::Waiting(one_less(level)),
        Arrival::AlreadyListed => Course::Known(Reason::ListedAlready),
    }
}

// The arrival with its answer.
fn entered_with<E: Numbered>(level: u32, answer: Result<Reply, E>) -> Course
    ensures { result ≡ entered_with level (answered_by E.number answer) }
{
    match answer {
        Ok(reply) => entered_as(level, reply),
        Err(refusal) => Course::Known(Reason::RefusedBy(refusal.number())),
    }
}

// The arrival with its reply: an outcome.
fn entered_as(level: u32, reply: Reply) -> Course
    ensures { result ≡ entered_with level (accepted reply) }
{
    match reply {
        Reply::Done => Course::Known(Reason::NoReason),
        Reply::Value(_) => Course::Known(Reason::NoReason),
        Reply::Waiting(_, _) => Course::Known(Reason::NoReason),
        Reply::Fates(_, _, _, _, _, _, _) => Course::Known(Reason::NoReason),
        Reply::Arrived(outcome) => entered_by(level, outcome),
        Reply::Entry(_, _, _) => Course::Known(Reason::NoReason),
        Reply::Stepped(_) => Course::Known(Reason::NoReason),
    }
}

// The arrival itself.
fn arrived<E: Numbered>(course: Course, answer: Result<Reply, E>) -> Course
    ensures { result ≡ arrived course (answered_by E.number answer) }
{
    match course {
        Course::Coming(level) => entered_with(level, answer),
        Course::Waiting(ahead) => Course::Waiting(ahead),
        Course::Known(reason) => Course::Known(reason),
    }
}

fn course_after<E: Numbered>(
    course: Course,
    happening: Happening,
    place: u32,
    at: u32,
    answer: Result<Reply, E>,
) -> Course
    requires { held_before course < most_held }
    ensures { result ≡ Rattle.following.specs.Course.course_after course happening place at (answered_by E.number answer) }
{
    if at == place {
        return arrived(course, answer);
    }
    passed(course, happening, at)
}

// One access more: the one at place `at`, where the arrival is at `place`.
pub fn next<E: Numbered>(
    watch: Watch,
    channel: u32,
    place: u32,
    at: u32,
    access: Access,
    answer: Result<Reply, E>,
) -> Watch
    requires { held_before watch.course < most_held }
    ensures { result ≡ next channel place at access (answered_by E.number answer) watch }
{
    let mode = watch.mode;
    let course = watch.course;
    let seen = receive_changes::by_access(channel, mode, access, answer);
    let happening = seen.happening;
    let after = course_after(course, happening, place, at, answer);
    Watch {
        mode: seen.mode,
        course: after,
    }
}

// The reason by the course at the end.
pub fn reason_of(watch: Watch) -> Reason
    ensures { result ≡ reason_by watch }
{
    let course = watch.course;
    match course {
        Course::Coming(_) => Reason::NoReason,
        Course::Waiting(_) => Reason::StillHeld,
        Course::Known(reason) => reason,
    }
}
