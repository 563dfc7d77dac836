//! The lines of a job, read one by one.
ghost use Rattle.std.specs.Prelude.{◌≡◌};
ghost use Rattle.ledger_job.specs.Keys.{digest_of};
ghost use Rattle.ledger_job.specs.Number.{number_of};
ghost use Rattle.ledger_job.specs.Ranges.{target_from};
ghost use Rattle.ledger_job.specs.Lines.{fields_of, is_skipped, open_from, target_line, update_line, limits_from, pay_from, one_word, three_words, four_words, five_words, line_of_fields, line_of};

use crate::key::{parse_digest, parse_key};
use crate::limits::JobLimits;
use crate::number::parse_number;
use crate::payment::Payment;
use crate::split::next_part;
use crate::target::target_from;
use ledger_log::{Key, Target};

/// An account that the served log opens.
#[derive(Clone, Copy, Debug, PartialEq, Eq)]
pub struct Open {
    /// The account's key.
    pub key: Key,
    /// Its balance.
    pub balance: u64,
    /// Its next nonce.
    pub nonce: u64,
}

/// What one line of a job says.
#[derive(Clone, Copy, Debug, PartialEq, Eq)]
pub enum Line {
    /// Nothing: the line is empty or a comment.
    Skipped,
    /// An account of the served log.
    Open(Open),
    /// The range of the peer's log.
    Target(Target),
    /// A later target.
    Update(Target),
    /// How the log is fetched.
    Limits(JobLimits),
    /// A body begins.
    Body,
    /// A block of rounds begins, without a round yet.
    Rounds,
    /// A round of the current block begins.
    Round,
    /// A payment of the current body or round.
    Pay(Payment),
}

/// What a line says, if it is a line of a job. No line has more than five fields: a sixth one is looked for, and
/// the others are left alone.
#[tactic(auto, unfolding(crate::specs::Lines::line_of))]
pub fn parse_line(line: &[u8]) -> Option<Line>
    ensures { result ≡ line_of line.now }
{
    if is_skipped(line) {
        return Some(Line::Skipped);
    }
    line_of_fields(line)
}

/// Whether a line is empty or a comment.
fn is_skipped(line: &[u8]) -> bool
    ensures { result ≡ is_skipped line.now }
{
    match line {
        [] => true,
        [first, ..] => *first == b'#',
    }
}

/// What the fields of a line say, taken one after another.
fn line_of_fields(line: &[u8]) -> Option<Line>
    ensures { result ≡ line_of_fields (fields_of line.now) }
{
    let mut left = Some(line);
    let word = next_part(&mut left, b' ')?;
    let Some(first) = next_part(&mut left, b' ') else {
        return one_word(word);
    };
    let second = next_part(&mut left, b' ')?;
    let Some(third) = next_part(&mut left, b' ') else {
        return three_words(word, first, second);
    };
    let Some(fourth) = next_part(&mut left, b' ') else {
        return four_words(word, first, second, third);
    };
    match next_part(&mut left, b' ') {
        Some(_) => None,
        None => five_words(word, first, second, third, fourth),
    }
}

fn one_word(word: &[u8]) -> Option<Line>
    ensures { result ≡ one_word word.now }
{
    if *word == *b"body".as_slice() {
        Some(Line::Body)
    } else if *word == *b"rounds".as_slice() {
        Some(Line::Rounds)
    } else if *word == *b"round".as_slice() {
        Some(Line::Round)
    } else {
        None
    }
}

fn three_words(word: &[u8], batch: &[u8], outstanding: &[u8]) -> Option<Line>
    ensures { result ≡ three_words word.now batch.now outstanding.now }
{
    if *word == *b"limits".as_slice() {
        limits_from(parse_number(batch), parse_number(outstanding))
    } else {
        None
    }
}

fn limits_from(batch: Option<u64>, outstanding: Option<u64>) -> Option<Line>
    ensures { result ≡ limits_from batch outstanding }
{
    let limits = JobLimits::new(batch?, outstanding?)?;
    Some(Line::Limits(limits))
}

fn four_words(word: &[u8], first: &[u8], second: &[u8], third: &[u8]) -> Option<Line>
    ensures { result ≡ four_words word.now first.now second.now third.now }
{
    if *word == *b"open".as_slice() {
        open_from(parse_key(first), parse_number(second), parse_number(third))
    } else if *word == *b"target".as_slice() {
        target_line(parse_target(first, second, third))
    } else if *word == *b"update".as_slice() {
        update_line(parse_target(first, second, third))
    } else {
        None
    }
}

/// The target that a root, a start and an end spell.
fn parse_target(root: &[u8], start: &[u8], end: &[u8]) -> Option<Target>
    ensures { result ≡ target_from (digest_of root.now) (number_of start.now) (number_of end.now) }
{
    target_from(parse_digest(root), parse_number(start), parse_number(end))
}

fn target_line(target: Option<Target>) -> Option<Line>
    ensures { result ≡ target_line target }
{
    Some(Line::Target(target?))
}

fn update_line(target: Option<Target>) -> Option<Line>
    ensures { result ≡ update_line target }
{
    Some(Line::Update(target?))
}

fn open_from(key: Option<Key>, balance: Option<u64>, nonce: Option<u64>) -> Option<Line>
    ensures { result ≡ open_from key balance nonce }
{
    Some(Line::Open(Open {
        key: key?,
        balance: balance?,
        nonce: nonce?,
    }))
}

fn five_words(word: &[u8], from: &[u8], to: &[u8], amount: &[u8], nonce: &[u8]) -> Option<Line>
    ensures { result ≡ five_words word.now from.now to.now amount.now nonce.now }
{
    if *word == *b"pay".as_slice() {
        pay_from(
            parse_key(from),
            parse_key(to),
            parse_number(amount),
            parse_number(nonce),
        )
    } else {
        None
    }
}

fn pay_from(
    from: Option<Key>,
    to: Option<Key>,
    amount: Option<u64>,
    nonce: Option<u64>,
) -> Option<Line>
    ensures { result ≡ pay_from from to amount nonce }
{
    Some(Line::Pay(Payment {
        from: from?,
        to: to?,
        amount: amount?,
        nonce: nonce?,
    }))
}
