//! Dials over loopback, with peers that send byte by byte, break off inside a frame, and send no message.
use crate::*;
use ledger_log::KeylessOp;
use std::alloc::Global;
use std::io::Cursor;
use std::net::TcpListener;
use std::test::Fail;
use std::thread;
use sync_net::{Answer, Dialer, Generator, Link, LinkError, Machine, MachineFault};

/// The frame of GetSyncTargetRequest 1.
const REQUEST: [u8; 10] = [9, 2, 0, 0, 0, 0, 0, 0, 0, 1];

/// The frame of GetSyncTargetResponse 1: a root of zeros, from 0 to 5.
const RESPONSE: [u8; 44] = [
    43, 3, 0, 0, 0, 0, 0, 0, 0, 1, 0, 0, 0, 0, 0, 0, 0, 0, 0, 0, 0, 0, 0, 0, 0, 0, 0, 0, 0, 0, 0,
    0, 0, 0, 0, 0, 0, 0, 0, 0, 0, 0, 0, 5,
];

/// Takes a connection and the request, sends these bytes one by one, and hangs up.
fn answer<L: Listener>(listener: &mut L, bytes: &[u8]) -> bool {
    let Ok(mut link) = listener.accept() else {
        return false;
    };
    let mut byte = [0; 1];
    for wanted in REQUEST {
        if link.recv(&mut byte) != Ok(1) || byte[0] != wanted {
            return false;
        }
    }
    bytes.chunks(1).all(|byte| link.send(byte).is_ok())
}

/// How a machine ends that asks the peer at this address for its target.
fn ask<D: Dialer>(alloc: Global, dialer: &mut D, address: &str) -> Option<&'static str> {
    let mut machine: Machine<KeylessOp> = Machine::new(alloc, Generator::new());
    let request = machine.submit_sync_target().ok()?;
    if dialer.dial(address).is_err() {
        return Some("dial");
    }
    if dialer.send(&request.frame).is_err() {
        return Some("network");
    }
    receive(dialer, &mut machine)
}

/// How a machine with a pending request ends, which is the word of its error line.
fn receive<L: Link>(link: &mut L, machine: &mut Machine<KeylessOp>) -> Option<&'static str> {
    let mut buffer = [0; 16];
    for _ in 0..100 {
        match machine.next_answer() {
            Ok(None) => {}
            Ok(Some(Answer::Reply { .. })) => return Some("answered"),
            Ok(Some(Answer::Stray { .. })) => return Some("strays"),
            Err(MachineFault::InvalidResponse) => return Some("response"),
            Err(_) => return None,
        }
        let Ok(count) = link.recv(&mut buffer) else {
            return Some("network");
        };
        if count == 0 {
            return match machine.end() {
                Err(MachineFault::RequestChannelClosed) => Some("closed"),
                _ => None,
            };
        }
        machine.feed(&buffer[..count]).ok()?;
    }
    None
}

#[test]
fn each_end_has_its_word(rt: HostRuntime) -> Result<(), Fail> {
    let alloc = rt.alloc();
    let bound = TcpListener::bind(&rt, "127.0.0.1:0")?;
    let address = format!(in alloc; "localhost:{}", bound.local_addr()?.port())?;
    let mut listener = TcpAccepting::new(bound);
    let cases = [
        (RESPONSE.as_slice(), "answered"),
        (&RESPONSE[..20], "closed"),
        ([3, 250, 251, 252].as_slice(), "response"),
    ];
    for (bytes, word) in cases {
        let mut dialer = TcpDialer::new(&rt);
        let (sent, ended) = thread::join(
            &rt,
            || answer(&mut listener, bytes),
            || ask(alloc, &mut dialer, &address),
        );
        assert!(rt; sent);
        assert_eq!(rt; ended, Some(word));
    }
    Ok(())
}

#[test]
fn a_machine_with_ipv6_is_dialed_by_it(rt: HostRuntime) -> Result<(), Fail> {
    let Ok(bound) = TcpListener::bind(&rt, "[::1]:0") else {
        return Ok(());
    };
    let address = format!(in rt.alloc(); "[::1]:{}", bound.local_addr()?.port())?;
    assert_eq!(rt; TcpDialer::new(&rt).dial(&address), Ok(()));
    Ok(())
}

#[test]
fn what_is_no_address_is_a_failed_dial(rt: HostRuntime) -> Result<(), Fail> {
    let mut dialer = TcpDialer::new(&rt);
    assert_eq!(rt; dialer.send(&REQUEST), Err(LinkError::Failed));
    for address in ["", "127.0.0.1", "127.0.0.1:", "127.0.0.1:65536", ":1"] {
        assert_eq!(rt;
            ask(rt.alloc(), &mut dialer, address),
            Some("dial"),
            "{address}"
        );
    }
    assert_eq!(rt; dialer.recv(&mut [0]), Err(LinkError::Failed));
    Ok(())
}

#[test]
fn a_dial_in_memory_fails_as_it_was_told(rt: HostRuntime) -> Result<(), Fail> {
    for (failing, word) in [(true, "dial"), (false, "network")] {
        let mut dialer = MemoryDialer::new(TcpDialer::new(&rt), failing);
        assert_eq!(rt; ask(rt.alloc(), &mut dialer, "x"), Some(word));
        assert_eq!(rt; dialer.recv(&mut [0]), Err(LinkError::Failed));
    }
    Ok(())
}

#[test]
fn a_list_of_links_ends(rt: HostRuntime) -> Result<(), Fail> {
    let mut links = Vec::new(rt.alloc());
    links.push(StreamLink::new(Cursor::new([7u8])))?;
    links.push(StreamLink::new(Cursor::new([8u8])))?;
    let mut listener = ListListener::new(links);
    for wanted in [7, 8] {
        let mut byte = [0; 1];
        let mut link = listener.accept().map_err(|_| "a link is to come")?;
        assert_eq!(rt; link.recv(&mut byte), Ok(1));
        assert_eq!(rt; byte[0], wanted);
        assert_eq!(rt; link.recv(&mut byte), Ok(0));
    }
    assert!(rt; listener.accept().is_err());
    Ok(())
}
