//! Links between peers, and faults of storage.
ghost use Rattle.std.specs.Prelude.{◌≤◌, ◌<◌};

/// A part of the whole.
#[derive(Clone, Copy, Debug)]
pub struct Fraction {
    pub num: u32,
    pub den: u32,
    ghost at_most_whole: { num ≤ den },
    ghost of_something: { 0 < den },
}

/// How a link carries messages: its least delay and the spread above it in milliseconds, and the part of
/// the messages that arrive.
#[derive(Clone, Copy, Debug)]
pub struct SimLink {
    pub latency: u64,
    pub jitter: u64,
    pub success: Fraction,
}

/// The storage fault that an engine is told of as it is made.
#[derive(Clone, Copy, Debug)]
pub struct FaultConfig {
    pub rate: Option<Fraction>,
}
