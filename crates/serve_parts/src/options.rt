//! The options of `serve`: each a name and a value.
ghost use Rattle.std.specs.Prelude.{◌≡◌, map, string_bytes};
ghost use Rattle.serve_parts.specs.Forms.{mode_read, family_read, storage_read, source_read, port_of, with_number, with_option, options_of, once};
ghost use Rattle.ledger_job.specs.Number.{number_of};

use crate::form::ServedFrom;
use ledger_examples::{DatabaseType, StorageKind, SyncMode};
use ledger_job::parse_number;

/// The values that were given so far.
#[derive(Clone, Copy, PartialEq, Eq, Debug)]
pub(crate) struct Given {
    pub mode: Option<SyncMode>,
    pub family: Option<DatabaseType>,
    pub storage: Option<StorageKind>,
    pub source: Option<ServedFrom>,
    pub port: Option<u16>,
    pub initial: Option<u64>,
    pub seed: Option<u64>,
    pub connections: Option<u64>,
    pub batch: Option<u64>,
}

/// The mode of this name.
fn mode_read(text: &str) -> Option<SyncMode>
    ensures { result ≡ mode_read text.now }
{
    SyncMode::parse(text)
}

/// The family of this name.
fn family_read(text: &str) -> Option<DatabaseType>
    ensures { result ≡ family_read text.now }
{
    DatabaseType::parse(text)
}

/// The kind of storage of this name.
fn storage_read(text: &str) -> Option<StorageKind>
    ensures { result ≡ storage_read text.now }
{
    StorageKind::parse(text)
}

/// Where the served log comes from.
fn source_read(text: &str) -> Option<ServedFrom>
    ensures { result ≡ source_read text.now }
{
    if text == "test" {
        Some(ServedFrom::Test)
    } else if text == "job" {
        Some(ServedFrom::Job)
    } else {
        None
    }
}

/// A port, which is never 0.
fn port_of(number: Option<u64>) -> Option<u16>
    ensures { result ≡ port_of number }
{
    let number = number?;
    if 1 <= number && number <= 65_535 {
        Some(number as u16)
    } else {
        None
    }
}

/// A value that is there and wasn't given before.
fn once<T: Copy + Drop>(before: Option<T>, value: Option<T>) -> Option<T>
    ensures { result ≡ once before value }
{
    match before {
        Some(_) => None,
        None => value,
    }
}

/// What was given, with this option of a number.
fn with_number(name: &str, number: Option<u64>, given: Given) -> Option<Given>
    ensures { result ≡ with_number name.now number given }
{
    if name == "--port" {
        let port = once(given.port, port_of(number))?;
        return Some(Given {
            port: Some(port),
            ..given
        });
    }
    if name == "--initial-ops" {
        let initial = once(given.initial, number)?;
        return Some(Given {
            initial: Some(initial),
            ..given
        });
    }
    if name == "--seed" {
        let seed = once(given.seed, number)?;
        return Some(Given {
            seed: Some(seed),
            ..given
        });
    }
    if name == "--connections" {
        let connections = once(given.connections, number)?;
        return Some(Given {
            connections: Some(connections),
            ..given
        });
    }
    if name == "--ops-per-connection" {
        let batch = once(given.batch, number)?;
        return Some(Given {
            batch: Some(batch),
            ..given
        });
    }
    None
}

/// What was given, with this option. None where it is no option, was given before, or its value is none.
fn with_option(name: &str, value: &str, given: Given) -> Option<Given>
    ensures { result ≡ with_option name.now value.now given }
{
    if name == "--mode" {
        let mode = once(given.mode, mode_read(value))?;
        return Some(Given {
            mode: Some(mode),
            ..given
        });
    }
    if name == "--family" {
        let family = once(given.family, family_read(value))?;
        return Some(Given {
            family: Some(family),
            ..given
        });
    }
    if name == "--storage" {
        let storage = once(given.storage, storage_read(value))?;
        return Some(Given {
            storage: Some(storage),
            ..given
        });
    }
    if name == "--source" {
        let source = once(given.source, source_read(value))?;
        return Some(Given {
            source: Some(source),
            ..given
        });
    }
    with_number(name, parse_number(value.as_bytes()), given)
}

/// What was given, with these options.
pub(crate) fn options_of(words: &[String], given: Given) -> Option<Given>
    ensures { result ≡ options_of (map string_bytes words.now) given }
{
    match words {
        [] => Some(given),
        [_] => None,
        [name, value, rest @ ..] => {
            let given = with_option(name.as_str(), value.as_str(), given)?;
            options_of(rest, given)
        }
    }
}
