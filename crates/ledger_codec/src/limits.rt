//! The greatest sizes of what is sent.

/// The greatest number of bytes of a message.
pub const MAX_MESSAGE_SIZE: u32 = 10_485_760;

/// The greatest number of digests of a proof, and of operations of an answer.
pub const MAX_DIGESTS: u64 = 10_000;

/// The greatest number of pinned nodes of an answer or a state.
pub const MAX_PINNED_NODES: u64 = 64;
