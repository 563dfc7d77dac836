//! The families of which logs of test operations are served.
use ledger_activity::CurrentFamily;
use ledger_examples::ExampleFamily;
use ledger_log::{AnyFamily, ImmutableFamily, KeylessFamily};

/// A family whose test operations a fresh log takes.
pub trait TestedFamily: ExampleFamily {
    ghost use Rattle.serve_parts.specs.Tests.{HasTests};

    // What holds of its test operations.
    ghost has_tests: { HasTests Self.floor_of Self.test_of Self.test_commit_of Self.added_of Self.floor_shown };
}

impl TestedFamily for AnyFamily {
    ghost use Rattle.serve_parts.specs.Laws.{any_has_tests};

    ghost has_tests = { any_has_tests };
}

impl TestedFamily for CurrentFamily {
    ghost use Rattle.serve_parts.specs.Laws.{any_has_tests};

    ghost has_tests = { any_has_tests };
}

impl TestedFamily for ImmutableFamily {
    ghost use Rattle.serve_parts.specs.Laws.{immutable_has_tests};

    ghost has_tests = { immutable_has_tests };
}

impl TestedFamily for KeylessFamily {
    ghost use Rattle.serve_parts.specs.Laws.{keyless_has_tests};

    ghost has_tests = { keyless_has_tests };
}
