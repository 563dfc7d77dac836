//! Jobs with rounds, and a longer one with a block of each kind. Roots and texts are those of
//! tests/reference.py.
use super::*;
use std::alloc::{AllocError, Global};
use std::fmt::Write;

const TWO_ROUNDS: &str =
    "open alice 10 0\nrounds\nround\npay alice bob 6 0\npay alice carol 5 1\nround\npay bob carol 1 0\npay alice dave 4 1\n";

#[test]
fn rounds_take_what_settles(rt: HostRuntime) -> Result<(), Fail> {
    let mut printed = String::new(rt.alloc());
    let status = local(&rt, TWO_ROUNDS, &[], &[], &mut printed)?;
    assert_eq!(rt; status, 0);
    assert_eq!(rt;
        printed.as_str(),
        "synced 0 3\nblock 0 rounds 10 01\naccount alice 0 2\naccount bob 6 0\naccount dave 4 0\nsize 7\nroot eb8622b00402432c0c37846a3ce22d22ff2ee6ad92c37573af2a4882719f3ce5\n"
    );
    Ok(())
}

#[test]
fn a_round_may_have_no_candidates(rt: HostRuntime) -> Result<(), Fail> {
    let mut printed = String::new(rt.alloc());
    let job =
        "open alice 10 0\nrounds\nround\npay alice bob 6 0\nround\nround\npay bob carol 0 0\n";
    let status = local(&rt, job, &[], &[], &mut printed)?;
    assert_eq!(rt; status, 0);
    assert_eq!(rt;
        printed.as_str(),
        "synced 0 3\nblock 0 rounds 1 - 1\naccount alice 4 1\naccount bob 6 1\nsize 6\nroot 4fabcbdd3e5c59f28e1b5a46af040ec63fb99f0e48c0425a15f6f9aa7fad0a37\n"
    );
    Ok(())
}

#[test]
fn an_empty_block_appends_a_commit(rt: HostRuntime) -> Result<(), Fail> {
    for (block, line) in [
        ("body\n", "block 0 body\n"),
        ("rounds\n", "block 0 rounds\n"),
    ] {
        let mut job = String::from_str(rt.alloc(), "open alice 10 0\n")?;
        job.push_str(block)?;
        let mut want = String::from_str(rt.alloc(), "synced 0 3\n")?;
        want.push_str(line)?;
        want.push_str(
            "account alice 10 0\nsize 4\nroot d75b881b516ac31c9892882d07f7ca0e933d057ff7a4687d89f226df5fb4e1d7\n",
        )?;
        let mut printed = String::new(rt.alloc());
        let status = local(&rt, job.as_str(), &[], &[], &mut printed)?;
        assert_eq!(rt; status, 0);
        assert_eq!(rt; printed.as_str(), want.as_str());
    }
    Ok(())
}

/// Payments in a ring of twenty, numbered from one place to another, with nonces from `nonce` on.
fn push_ring(job: &mut String, first: u64, last: u64, nonce: u64) -> Result<(), AllocError> {
    for i in first..last {
        let from = i % 20;
        let to = (i + 1) % 20;
        let next = nonce.saturating_add(i / 20);
        write!(
            job,
            "pay a{}{} a{}{} 1 {next}\n",
            from / 10,
            from % 10,
            to / 10,
            to % 10
        )?;
    }
    Ok(())
}

/// A fee of 2 of each of ten accounts into the pool, at this nonce.
fn push_fees(job: &mut String, tens: u64, nonce: u64) -> Result<(), AllocError> {
    for i in 0..10u64 {
        write!(job, "pay a{tens}{i} pool 2 {nonce}\n")?;
    }
    Ok(())
}

/// Twenty accounts that pay in a ring in a body and in two rounds, and then into a pool.
fn ring_job(alloc: Global) -> Result<String, AllocError> {
    let mut job = String::new(alloc);
    for i in 0..20u64 {
        write!(&mut job, "open a{}{} 1000 0\n", i / 10, i % 10)?;
    }
    job.push_str("body\n")?;
    push_ring(&mut job, 0, 100, 0)?;
    job.push_str("rounds\nround\n")?;
    push_ring(&mut job, 0, 25, 5)?;
    job.push_str("round\n")?;
    push_ring(&mut job, 25, 50, 5)?;
    job.push_str("body\n")?;
    for (tens, nonce) in [(0, 8), (1, 7), (0, 9), (1, 8), (0, 10)] {
        push_fees(&mut job, tens, nonce)?;
    }
    Ok(job)
}

const RING_REPORT: &str =
    "synced 0 22\nblock 0 body\nblock 1 rounds 1111111111111111111111111 1111111111111111111111111\nblock 2 body\naccount a00 993 11\naccount a01 994 11\naccount a02 994 11\naccount a03 994 11\naccount a04 994 11\naccount a05 994 11\naccount a06 994 11\naccount a07 994 11\naccount a08 994 11\naccount a09 994 11\naccount a10 997 9\naccount a11 996 9\naccount a12 996 9\naccount a13 996 9\naccount a14 996 9\naccount a15 996 9\naccount a16 996 9\naccount a17 996 9\naccount a18 996 9\naccount a19 996 9\naccount pool 100 0\nsize 86\nroot 6d7fec73a40ce73b58988d049a3f1c5ec5308dc7c9e3229e9a09f348990ca804\n";

#[test]
fn a_ring_of_payments_ends_as_stated(rt: HostRuntime) -> Result<(), Fail> {
    let job = ring_job(rt.alloc())?;
    let mut printed = String::new(rt.alloc());
    let status = local(&rt, job.as_str(), &[], &[], &mut printed)?;
    assert_eq!(rt; status, 0);
    assert_eq!(rt; printed.as_str(), RING_REPORT);
    Ok(())
}

#[test]
fn words_beside_the_command_are_no_form(rt: HostRuntime) -> Result<(), Fail> {
    let alloc = rt.alloc();
    let mut words = Vec::new(alloc);
    words.push(String::from_str(alloc, "local")?)?;
    words.push(String::from_str(alloc, "x")?)?;
    let mut source = MemorySource::new(Vec::new(alloc), Vec::new(alloc));
    let mut sink = MemorySink::new(alloc, Vec::new(alloc));
    let outcome = run(&rt, alloc, &words, &mut source, &mut Nowhere, &mut sink);
    assert_eq!(rt; outcome.status, 2);
    assert_eq!(rt; std::str::from_utf8(sink.bytes())?, "error usage\n");
    Ok(())
}
