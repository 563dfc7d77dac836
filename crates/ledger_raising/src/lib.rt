//! What a batch of the families any and current appends: its changes, copies of old operations that still
//! count, and a commit with a higher floor.
//!
//! ```text
//! log, batches behind it, changes --raise--> changes, copies, commit --root_behind--> the root after them
//! ```
//!
//! For each change one old operation is copied to the end, so that the floor, below which nobody needs the
//! log, moves on as fast as the log grows. The copies leave every value as it was.
#![tactic(auto)]

mod family;
mod raising;
mod roots;

pub use family::RaisingFamily;
pub use raising::{RaisedBatch, raise};
pub use roots::root_behind;
