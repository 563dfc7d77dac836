//! A root and inputs of leaves in hexadecimal digits, as vectors/promises.py prints them.

/// The root of the log of four accounts.
pub(super) const ROOT_FOUR: &str =
    "306cc63dc2a06596f4ca7dedb5dcce8d87eb57bb29020a298a998eb02127ebe2";

/// The root of that log with a fifth account behind it.
pub(super) const ROOT_FIVE: &str =
    "61e42ce88b6ee31a829c7db29fed4b6c160b43c5f463557f95865a3f0f327e6a";

/// What the leaf of an account at place 1 is hashed from.
pub(super) const HONEST: &str =
    "0000000000000000010000000000000000000000000000000000000000000000000000000000000000000101010101010101010101010101010101010101010101010101010101010101";

/// What another one is, whose bytes have the same sum.
pub(super) const FORGED: &str =
    "0000000000000000010000000000000000000000000000000000000000000000000000000000000000000200010101010101010101010101010101010101010101010101010101010101";
