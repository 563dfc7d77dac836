//! What a client and a server say to each other, and the client's side of asking.
//!
//! ```text
//!   Ask --Machine::submit_*--> frame --Link::send-->  server
//!                                                       |
//!   Answer <--Machine::next_answer-- bytes <--Link::recv+
//! ```
//!
//! There are nine messages, each a tag and its fields; their bytes are those of docs/FORMATS.md. A message
//! within its limits that was written is read again as it, whatever follows, and no message's bytes begin
//! another's. A `Machine` numbers requests, keeps what was asked under each number, and hands out each
//! answer with its request, at most one under a number. A `Link` carries bytes both ways, and tells as much
//! of them as it can; a `Dialer` is a link that is made by dialing.
#![tactic(auto)]

mod ask;
mod code;
mod error;
mod fault;
mod fields;
mod generator;
mod link;
mod machine;
mod message;
mod request;
mod response;

pub use ask::{Answer, Ask, Pending, Submitted};
pub use code::ErrorCode;
pub use error::Error;
pub use fault::{MachineFault, SubmitRefusal};
pub use generator::Generator;
pub use link::{DialFailed, Dialer, Link, LinkError};
pub use machine::Machine;
pub use message::Message;
pub use request::{
    GetCompactStateRequest, GetCompactTargetRequest, GetOperationsRequest, GetSyncTargetRequest,
    InvalidRange,
};
pub use response::{
    ErrorResponse, GetCompactStateResponse, GetCompactTargetResponse, GetOperationsResponse,
    GetSyncTargetResponse,
};
