//! Events as bytes, for the digest of a run.

use crate::event::Event;
use sha2::{Digest, Sha256};
use simulate_parts::{Action, FaultConfig, SimLink};

/// Feeds a number as eight bytes, the first the highest.
fn write_number(state: &mut Sha256, number: u64) {
    state.update(number.to_be_bytes().as_slice());
}

/// Feeds a tag.
fn write_tag(state: &mut Sha256, tag: u8) {
    state.update([tag].as_slice());
}

/// Feeds a link.
fn write_link(state: &mut Sha256, link: &SimLink) {
    write_number(state, link.latency);
    write_number(state, link.jitter);
    write_number(state, u64::from(link.success.num));
    write_number(state, u64::from(link.success.den));
}

/// Feeds a storage fault.
fn write_fault(state: &mut Sha256, fault: &FaultConfig) {
    match &fault.rate {
        Some(rate) => {
            write_tag(state, 1);
            write_number(state, u64::from(rate.num));
            write_number(state, u64::from(rate.den));
        }
        None => write_tag(state, 0),
    }
}

/// Feeds an action.
fn write_action(state: &mut Sha256, action: &Action) {
    match action {
        Action::SetStorageFault(fault) => {
            write_tag(state, 0);
            write_fault(state, fault);
        }
        Action::Heal(link) => {
            write_tag(state, 1);
            write_link(state, link);
        }
        Action::UpdateLink { from, to, link } => {
            write_tag(state, 2);
            write_number(state, from.0);
            write_number(state, to.0);
            write_link(state, link);
        }
        Action::Crash(pk) => {
            write_tag(state, 3);
            write_number(state, pk.0);
        }
        Action::Restart(pk) => {
            write_tag(state, 4);
            write_number(state, pk.0);
        }
    }
}

/// Feeds an event with its time and number: each number as eight bytes, each kind by a tag, bytes behind
/// their length.
pub fn write_event(state: &mut Sha256, key: (u64, u64), event: &Event) {
    write_number(state, key.0);
    write_number(state, key.1);
    match event {
        Event::Started { pk } => {
            write_tag(state, 0);
            write_number(state, pk.0);
        }
        Event::Timer { pk, birth } => {
            write_tag(state, 1);
            write_number(state, pk.0);
            write_number(state, *birth);
        }
        Event::Received {
            from,
            to,
            channel,
            bytes,
        } => {
            write_tag(state, 2);
            write_number(state, from.0);
            write_number(state, to.0);
            write_number(state, *channel);
            write_number(state, bytes.as_slice().len() as u64);
            state.update(bytes.as_slice());
        }
        Event::Act(action) => {
            write_tag(state, 3);
            write_action(state, action);
        }
        Event::CrashTick => write_tag(state, 4),
        Event::ExitPoll => write_tag(state, 5),
        Event::Recover { pk } => {
            write_tag(state, 6);
            write_number(state, pk.0);
        }
    }
}
