//! Jobs that are served.
use ledger_job::JobFault;
use serve_parts::parse_accounts;
use std::alloc::Global;

/// How many accounts a text opens and the balance of the last one, or the least offending line.
fn opened(alloc: Global, text: &[u8]) -> Result<(usize, u64), JobFault> {
    let accounts = parse_accounts(alloc, text)?;
    match accounts.last() {
        Some(account) => Ok((accounts.len(), account.balance)),
        None => Ok((0, 0)),
    }
}

#[test]
fn accounts_are_read(rt: HostRuntime) {
    let cases = [
        (b"".as_slice(), (0, 0)),
        (b"open alice 100 0\n".as_slice(), (1, 100)),
        (b"# two\n\nopen a 1 2\nopen a 3 4".as_slice(), (2, 3)),
    ];
    for (text, want) in cases {
        assert!(rt; opened(rt.alloc(), text) == Ok(want));
    }
}

#[test]
fn other_lines_offend(rt: HostRuntime) {
    let cases = [
        (b"body\n".as_slice(), 1),
        (b"open a 1 0\nlimits 50 1\n".as_slice(), 2),
        (b"# served\nopen a 1 0\nopen a 1\n".as_slice(), 3),
        (b"open a 1 0\n\nrounds\nwrong\n".as_slice(), 3),
        (b"open  a 1 0".as_slice(), 1),
        (b"open a 01 0\n".as_slice(), 1),
    ];
    for (text, line) in cases {
        assert!(rt; opened(rt.alloc(), text) == Err(JobFault::BadLine(line)));
    }
}
