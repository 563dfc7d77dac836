//! The words of the program: what job they ask for, and how many workers.
ghost use Rattle.std.specs.Prelude.{◌≡◌, map, string_bytes};
ghost use Rattle.ledger_program.specs.Forms.{one_word, two_words, form_of, few_workers, workers_of, workers_in};

use ledger_job::{JobKind, parse_number};
use ledger_strategy::Workers;

fn one_word(word: &str) -> Option<JobKind>
    ensures { result ≡ one_word word.now }
{
    if word == "local" {
        Some(JobKind::Local)
    } else {
        None
    }
}

fn two_words(word: &str) -> Option<JobKind>
    ensures { result ≡ two_words word.now }
{
    if word == "follow" {
        Some(JobKind::Follow)
    } else {
        None
    }
}

/// So many workers, where that is a number of them.
fn few_workers(count: u64) -> Option<Workers>
    ensures { result ≡ few_workers count }
{
    Workers::new(count as usize)
}

/// The workers that an option asks for, by its name and its value; none where it is another option, or no number of
/// workers.
pub fn workers_of(name: &str, value: &str) -> Option<Workers>
    ensures { result ≡ workers_of name.now value.now }
{
    if name != "--workers" {
        return None;
    }
    match parse_number(value.as_bytes()) {
        Some(count) => few_workers(count),
        None => None,
    }
}

/// The kind of job that the words ask for, if they are a form of the program.
pub(crate) fn form_of(words: &[String]) -> Option<JobKind>
    ensures { result ≡ form_of (map string_bytes words.now) }
{
    match words {
        [word] => one_word(word.as_str()),
        [word, _] => two_words(word.as_str()),
        [word, name, value] => match workers_of(name.as_str(), value.as_str()) {
            Some(_) => one_word(word.as_str()),
            None => None,
        },
        [word, _, name, value] => match workers_of(name.as_str(), value.as_str()) {
            Some(_) => two_words(word.as_str()),
            None => None,
        },
        _ => None,
    }
}

/// The workers that the words ask for; none where all is to be done on the caller.
pub(crate) fn workers_in(words: &[String]) -> Option<Workers>
    ensures { result ≡ workers_in (map string_bytes words.now) }
{
    match words {
        [_, name, value] => workers_of(name.as_str(), value.as_str()),
        [_, _, name, value] => workers_of(name.as_str(), value.as_str()),
        _ => None,
    }
}

/// The address among the words, where there is one.
pub(crate) fn address_of(words: &[String]) -> &str {
    match words {
        [_, address] => address.as_str(),
        [_, address, _, _] => address.as_str(),
        _ => "",
    }
}
