//! Why a request is refused, for people to read.
ghost use Rattle.std.specs.Prelude.{◌≡◌, ◌||◌, nat_lt, IfOk, IfSome, string_bytes, option_map};
ghost use Rattle.sync_net.specs.Messages.{MessageFits};
ghost use Rattle.sync_net.specs.Core.{refuse, range_refused, empty_range, beyond_log};

use ledger_codec::{OutOfMemory, Text};
use std::alloc::{AllocError, Global};
use std::fmt::Write;
use sync_net::{ErrorCode, ErrorResponse, Message};

/// The refusal of the request of this number.
pub(crate) fn refusal<Op>(number: u64, code: ErrorCode, text: String) -> Message<Op>
    ensures { result ≡ refuse number (record { code = code; text = string_bytes text }) }
{
    Message::Error(ErrorResponse {
        request_id: number,
        error_code: code,
        message: Text::from_string(text),
    })
}

/// These words.
pub(crate) fn text_of(alloc: Global, words: &str) -> Result<String, AllocError>
    ensures { IfOk result (λ text. string_bytes text ≡ words.now) }
{
    String::from_str(alloc, words)
}

fn empty_range_text(alloc: Global, start: u64, count: u64) -> Result<String, AllocError>
    ensures { IfOk result (λ text. string_bytes text ≡ (empty_range start count).text) }
{
    let mut text = String::from_str(alloc, "invalid request: start_loc >= size (")?;
    write!(text, "{start}) >= ({count})")?;
    Ok(text)
}

fn beyond_log_text(alloc: Global, start: u64, size: u64) -> Result<String, AllocError>
    ensures { IfOk result (λ text. string_bytes text ≡ (beyond_log start size).text) }
{
    let mut text = String::from_str(alloc, "invalid request: start_loc (")?;
    write!(text, "{start}) >= database size ({size})")?;
    Ok(text)
}

/// Why a log with this front and this size doesn't serve operations from `start` on in the tree of the
/// first `count`; None where it does.
pub(crate) fn range_refusal<Op>(
    alloc: Global,
    number: u64,
    front: u64,
    size: u64,
    count: u64,
    start: u64,
) -> Result<Option<Message<Op>>, OutOfMemory>
    ensures refused { IfOk result
        (λ refused. refused ≡ option_map (refuse number) (range_refused front size count start)) }
    ensures limits { IfOk result (λ refused. IfSome refused (λ m. MessageFits (λ op. Unit {0}) m)) }
{
    if count <= start {
        let text = empty_range_text(alloc, start, count)?;
        return Ok(Some(refusal(number, ErrorCode::InvalidRequest, text)));
    }
    if size <= start {
        let text = beyond_log_text(alloc, start, size)?;
        return Ok(Some(refusal(number, ErrorCode::InvalidRequest, text)));
    }
    if lacks(front, size, count, start) {
        let text = text_of(alloc, "database operation failed")?;
        return Ok(Some(refusal(number, ErrorCode::DatabaseError, text)));
    }
    Ok(None)
}

/// Whether a log with this front and this size lacks the tree of the first `count` or what stands at
/// `start`.
fn lacks(front: u64, size: u64, count: u64, start: u64) -> bool
    ensures { result ≡ (nat_lt size count || nat_lt start front) }
{
    size < count || start < front
}
