//! Tables of bytes, each kind of message, and the machine's answers.

mod errors;
mod machine;
mod messages;
mod states;
mod written;
