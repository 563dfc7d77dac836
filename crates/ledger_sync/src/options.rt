//! The options behind the address: each a name and a value.
ghost use Rattle.std.specs.Prelude.{◌≡◌, map, string_bytes};
ghost use Rattle.ledger_sync.specs.Forms.{mode_read, family_read, with_option, options_of, once};
ghost use Rattle.ledger_job.specs.Number.{number_of};

use ledger_examples::{DatabaseType, SyncMode};
use ledger_job::parse_number;

/// The values that were given so far.
#[derive(Clone, Copy, PartialEq, Eq, Debug)]
pub(crate) struct Given {
    pub mode: Option<SyncMode>,
    pub family: Option<DatabaseType>,
    pub batch: Option<u64>,
    pub outstanding: Option<u64>,
}

/// The mode of this name.
fn mode_read(text: &str) -> Option<SyncMode>
    ensures { result ≡ mode_read text.now }
{
    SyncMode::parse(text)
}

/// The family of this name.
fn family_read(text: &str) -> Option<DatabaseType>
    ensures { result ≡ family_read text.now }
{
    DatabaseType::parse(text)
}

/// A value that is there and wasn't given before.
fn once<T: Copy + Drop>(before: Option<T>, value: Option<T>) -> Option<T>
    ensures { result ≡ once before value }
{
    match before {
        Some(_) => None,
        None => value,
    }
}

/// What was given, with this option. None where it is no option, was given before, or its value is none.
fn with_option(name: &str, value: &str, given: Given) -> Option<Given>
    ensures { result ≡ with_option name.now value.now given }
{
    if name == "--mode" {
        let mode = once(given.mode, mode_read(value))?;
        return Some(Given {
            mode: Some(mode),
            ..given
        });
    }
    if name == "--family" {
        let family = once(given.family, family_read(value))?;
        return Some(Given {
            family: Some(family),
            ..given
        });
    }
    if name == "--batch-size" {
        let batch = once(given.batch, parse_number(value.as_bytes()))?;
        return Some(Given {
            batch: Some(batch),
            ..given
        });
    }
    if name == "--max-outstanding-requests" {
        let outstanding = once(given.outstanding, parse_number(value.as_bytes()))?;
        return Some(Given {
            outstanding: Some(outstanding),
            ..given
        });
    }
    None
}

/// What was given, with these options.
pub(crate) fn options_of(words: &[String], given: Given) -> Option<Given>
    ensures { result ≡ options_of (map string_bytes words.now) given }
{
    match words {
        [] => Some(given),
        [_] => None,
        [name, value, rest @ ..] => {
            let given = with_option(name.as_str(), value.as_str(), given)?;
            options_of(rest, given)
        }
    }
}
