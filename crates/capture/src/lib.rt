// Capture files: records of arrivals and schedule images, read from lent bytes and written to them.
#![tactic(auto)]

pub mod kinds;
pub mod reading;
pub mod refusal;
pub mod writing;

// A place in capture bytes, by value.
#[derive(Clone, Copy)]
pub struct Cursor {
    pub offset: usize,
}
