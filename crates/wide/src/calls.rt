// The module-wide calls, as values, and what they do.
#[derive(Clone, Copy)]
pub enum WideCall {
    // The ticks to add.
    AdvanceStamp(u32),
    ZeroStamp,
    ReadStamp,
    WriteResolution(u32),
    ReadResolution,
    WriteThreshold(u32),
    ReadThreshold,
}

#[derive(Clone, Copy)]
pub enum WideEffect {
    // A word of the module part, which is the answer's value.
    Shows(usize),
    // A word of the module part and what is stored there.
    Stores(usize, u32),
    // The ticks to add to the stamp.
    Advances(u32),
}
