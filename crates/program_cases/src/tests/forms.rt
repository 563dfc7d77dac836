//! Words of `sync`, and what they ask for.
use ledger_examples::{DatabaseType, SyncMode};
use ledger_sync::sync_form;
use std::alloc::Global;

mod logs;

/// What the words of this line ask for: the mode, the family, the batch, the requests at once.
fn asked(alloc: Global, line: &str) -> Option<(SyncMode, DatabaseType, u64, usize)> {
    let mut words = Vec::new(alloc);
    for word in line.split(' ') {
        let word = String::from_str(alloc, word).ok()?;
        words.push(word).ok()?;
    }
    let form = sync_form(&words)?;
    Some((
        form.mode,
        form.family,
        form.limits.batch(),
        form.limits.outstanding(),
    ))
}

#[test]
fn words_are_forms(rt: HostRuntime) {
    let full = SyncMode::Full;
    let cases = [
        ("sync x", full, DatabaseType::Any, 50, 1),
        ("sync x --batch-size 25", full, DatabaseType::Any, 25, 1),
        (
            "sync --mode --family CURRENT --max-outstanding-requests 64",
            full,
            DatabaseType::Current,
            50,
            64,
        ),
        (
            "sync x --family keyless --mode Compact",
            SyncMode::Compact,
            DatabaseType::Keyless,
            50,
            1,
        ),
        (
            "sync x --batch-size 18446744073709551615 --mode full --family immutable",
            full,
            DatabaseType::Immutable,
            u64::MAX,
            1,
        ),
    ];
    for (line, mode, family, batch, outstanding) in cases {
        assert_eq!(rt;
            asked(rt.alloc(), line),
            Some((mode, family, batch, outstanding)),
            "{line}"
        );
    }
}

#[test]
fn other_words_are_none(rt: HostRuntime) {
    let lines = [
        "",
        "sync",
        "follow x",
        "sync x --mode",
        "sync x --mode compact",
        "sync x --mode compact --family current",
        "sync x --mode full --mode full",
        "sync x --mode whole",
        "sync x --batch-size 0",
        "sync x --batch-size 01",
        "sync x --batch-size 18446744073709551616",
        "sync x --max-outstanding-requests 0",
        "sync x --max-outstanding-requests 65",
        "sync x --batch-size=5",
        "sync x --port 80",
        "sync x y",
    ];
    for line in lines {
        assert_eq!(rt; asked(rt.alloc(), line), None, "{line}");
    }
}
