//! The texts of errors.

use ledger_codec::Text;
use std::alloc::Global;
use std::test::*;
use sync_net::*;

/// The text `why`.
fn why(alloc: Global) -> Option<Text> {
    Some(Text::from_string(String::from_str(alloc, "why").ok()?))
}

/// An error's text.
fn shown(alloc: Global, error: &Error) -> Option<String> {
    format!(in alloc; "{error}").ok()
}

/// Whether an error has this text.
fn says(alloc: Global, error: &Error, text: &str) -> bool {
    match shown(alloc, error) {
        Some(shown) => shown.as_str() == text,
        None => false,
    }
}

#[test]
fn texts_without_parts(rt: HostRuntime) {
    assert!(rt; says(rt.alloc(), &Error::Network, "stream error"));
    assert!(rt; says(rt.alloc(), &Error::Database, "database operation failed"));
    assert!(rt;
        says(
            rt.alloc(),
            &Error::InvalidResponse,
            "invalid response from server"
        )
    );
    assert!(rt;
        says(
            rt.alloc(),
            &Error::RequestChannelClosed,
            "request channel closed - I/O task may have terminated"
        )
    );
}

#[test]
fn texts_with_numbers(rt: HostRuntime) {
    assert!(rt;
        says(
            rt.alloc(),
            &Error::UnexpectedResponse { request_id: 7 },
            "unexpected response type for request 7"
        )
    );
    assert!(rt;
        says(
            rt.alloc(),
            &Error::ResponseChannelClosed { request_id: 8 },
            "response channel closed for request 8"
        )
    );
}

#[test]
fn texts_with_texts(rt: HostRuntime) -> Result<(), Fail> {
    let a = why(rt.alloc()).ok_or("there is memory")?;
    let b = why(rt.alloc()).ok_or("there is memory")?;
    assert!(rt;
        says(
            rt.alloc(),
            &Error::Server {
                code: ErrorCode::StaleTarget,
                message: a
            },
            "server error (code: StaleTarget): why"
        )
    );
    assert!(rt;
        says(
            rt.alloc(),
            &Error::InvalidRequest(b),
            "invalid request: why"
        )
    );
    Ok(())
}

#[test]
fn more_texts_with_texts(rt: HostRuntime) -> Result<(), Fail> {
    let a = why(rt.alloc()).ok_or("there is memory")?;
    let b = why(rt.alloc()).ok_or("there is memory")?;
    let c = why(rt.alloc()).ok_or("there is memory")?;
    assert!(rt;
        says(
            rt.alloc(),
            &Error::StaleTarget(a),
            "stale compact target: why"
        )
    );
    assert!(rt;
        says(
            rt.alloc(),
            &Error::TargetUpdateChannel { reason: b },
            "target update channel error: why"
        )
    );
    assert!(rt;
        says(
            rt.alloc(),
            &Error::InvalidConfig(c),
            "invalid configuration: why"
        )
    );
    Ok(())
}
