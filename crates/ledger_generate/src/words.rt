//! The words of `generate`.
ghost use Rattle.std.specs.Prelude.{◌≡◌, map, string_bytes};
ghost use Rattle.ledger_generate.specs.Words.{sizes_of, form_of, workers_in};

use crate::sizes::Sizes;
use ledger_job::parse_number;
use ledger_program::workers_of;
use ledger_strategy::Workers;

/// The sizes that four words ask for.
fn sizes_of(word: &str, seed: &str, accounts: &str, transfers: &str) -> Option<Sizes>
    ensures { result ≡ sizes_of word.now seed.now accounts.now transfers.now }
{
    if word != "generate" {
        return None;
    }
    let seed = parse_number(seed.as_bytes())?;
    let accounts = parse_number(accounts.as_bytes())?;
    let transfers = parse_number(transfers.as_bytes())?;
    Sizes::new(seed, accounts, transfers)
}

/// The sizes that the words ask for, if they are a form of `generate`.
pub(crate) fn form_of(words: &[String]) -> Option<Sizes>
    ensures { result ≡ form_of (map string_bytes words.now) }
{
    match words {
        [word, seed, accounts, transfers] => sizes_of(
            word.as_str(),
            seed.as_str(),
            accounts.as_str(),
            transfers.as_str(),
        ),
        [word, seed, accounts, transfers, name, value] => {
            match workers_of(name.as_str(), value.as_str()) {
                Some(_) => sizes_of(
                    word.as_str(),
                    seed.as_str(),
                    accounts.as_str(),
                    transfers.as_str(),
                ),
                None => None,
            }
        }
        _ => None,
    }
}

/// The workers that the words ask for; none where all is to be done on the caller.
pub(crate) fn workers_in(words: &[String]) -> Option<Workers>
    ensures { result ≡ workers_in (map string_bytes words.now) }
{
    match words {
        [_, _, _, _, name, value] => workers_of(name.as_str(), value.as_str()),
        _ => None,
    }
}
