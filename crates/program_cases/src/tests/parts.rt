//! Words of `serve`, and what they ask for.
use ledger_examples::{DatabaseType, StorageKind, SyncMode};
use serve_parts::{ServeForm, ServedFrom, serve_form};
use std::alloc::Global;

mod accounts;
mod logs;

/// What the words of this line ask for.
fn asked(alloc: Global, line: &str) -> Option<ServeForm> {
    let mut words = Vec::new(alloc);
    for word in line.split(' ') {
        let word = String::from_str(alloc, word).ok()?;
        words.push(word).ok()?;
    }
    serve_form(&words)
}

const USUAL: ServeForm = ServeForm {
    mode: SyncMode::Full,
    family: DatabaseType::Any,
    storage: StorageKind::Full,
    source: ServedFrom::Test,
    port: 8080,
    initial: 100,
    seed: 0,
    connections: 1,
    batch: 0,
};

#[test]
fn words_are_forms_of_full_mode(rt: HostRuntime) {
    let cases = [
        ("serve", USUAL),
        (
            "serve --source job --connections 7 --ops-per-connection 1 --port 65535",
            ServeForm {
                source: ServedFrom::Job,
                connections: 7,
                batch: 1,
                port: 65_535,
                ..USUAL
            },
        ),
        (
            "serve --initial-ops 1000000 --family CURRENT --connections 8 --seed 18446744073709551615",
            ServeForm {
                initial: 1_000_000,
                family: DatabaseType::Current,
                connections: 8,
                seed: u64::MAX,
                ..USUAL
            },
        ),
    ];
    for (line, form) in cases {
        assert_eq!(rt; asked(rt.alloc(), line), Some(form), "{line}");
    }
}

#[test]
fn words_are_forms_of_compact_mode(rt: HostRuntime) {
    let cases = [
        (
            "serve --mode compact --family keyless --storage compact --port 1",
            ServeForm {
                mode: SyncMode::Compact,
                family: DatabaseType::Keyless,
                storage: StorageKind::Compact,
                port: 1,
                ..USUAL
            },
        ),
        (
            "serve --mode compact --family immutable --initial-ops 0 --source test",
            ServeForm {
                mode: SyncMode::Compact,
                family: DatabaseType::Immutable,
                initial: 0,
                ..USUAL
            },
        ),
    ];
    for (line, form) in cases {
        assert_eq!(rt; asked(rt.alloc(), line), Some(form), "{line}");
    }
}

#[test]
fn other_words_are_none(rt: HostRuntime) {
    let lines = [
        "",
        "sync",
        "serve 8080",
        "serve --port",
        "serve --port 0",
        "serve --port 65536",
        "serve --port 080",
        "serve --seed -1",
        "serve --initial-ops 1000001",
        "serve --connections 0",
        "serve --connections 9",
        "serve --ops-per-connection 10",
        "serve --seed 1 --seed 1",
        "serve --source other",
        "serve --source Test",
        "serve --batch-size 5",
    ];
    for line in lines {
        assert_eq!(rt; asked(rt.alloc(), line), None, "{line}");
    }
}

#[test]
fn some_combinations_are_none(rt: HostRuntime) {
    let lines = [
        "serve --connections 8 --ops-per-connection 1",
        "serve --family immutable --ops-per-connection 1",
        "serve --mode compact --family keyless --ops-per-connection 1",
        "serve --mode compact",
        "serve --mode compact --family current",
        "serve --storage full",
        "serve --storage compact --family immutable",
        "serve --source job --family current",
        "serve --source job --mode compact --family immutable",
    ];
    for line in lines {
        assert_eq!(rt; asked(rt.alloc(), line), None, "{line}");
    }
}
