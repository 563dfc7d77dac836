//! Which operations of a log still count, and the root that says so.
//!
//! ```text
//! Log<CurrentFamily> --bits--> a bit for each place --chunks of 32 bytes--> bits root --+
//!         |                                                                             +--> canonical root
//!         +--root--> operations root ---------------------------------------------------+
//! ```
//!
//! A log of the family current is one of the family any that can also say which of its Updates are its
//! keys' last operations. To somebody who knows its canonical root it can be shown that a key holds a value
//! now, and not only that it once did. Clients sync to the operations root.
#![tactic(auto)]

mod activity;
mod behind;
mod chunks;
mod current;
mod later;

pub use activity::Activity;
pub use behind::current_root_behind;
pub use current::CurrentFamily;
