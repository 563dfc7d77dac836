//! Uses of the clauses that stand under a premise, by the crate that makes the promise. What each function here says
//! of its answer is derived from such a clause; the tests call them, with values that were worked out elsewhere.

mod bytes;
mod compact;
mod links;
mod logs;
mod parts;
mod served;
mod sessions;
mod texts;
mod trackers;
mod trees;
