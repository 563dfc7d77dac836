//! Servers: what they answer, and links in memory that carry the answers.
//!
//! ```text
//!   request --FullMode::reply--> reply, over a Log
//!
//!   frame of a request --MemoryLink::send--> owed reply --MemoryLink::recv--> its bytes, piece by piece
//!   any bytes          --TapeLink::send-->   kept         TapeLink::recv  --> the tape's bytes
//! ```
//!
//! A reply is a function of the log and the message, which is stated once, beside the messages. A
//! `MemoryLink` tells that it serves its log; a `TapeLink` tells the bytes that it gave and that it was
//! sent. Both number their calls from 0, and fail those whose numbers they were given.
#![tactic(auto)]

mod calls;
mod framed;
mod full;
mod memory;
mod mode;
mod operations;
mod pieces;
mod refusals;
mod sent;
mod tape;

pub use memory::MemoryLink;
pub use mode::{FullMode, MAX_BATCH_SIZE, ServeMode};
pub use sent::SentFamily;
pub use tape::TapeLink;
