//! Messages on their way.
ghost use Rattle.std.specs.Prelude.{◌≡◌, ◌++◌, ◌==◌, OnOk};
ghost use Rattle.std.specs.List.{list_any};
ghost use Rattle.simulate_parts.specs.Seats.{runs};
ghost use Rattle.ledger_simulate.specs.Links.{link_of};
ghost use Rattle.ledger_simulate.specs.Messages.{delivered, lets_through, sent, timers_of};

use crate::agenda::Agenda;
use crate::event::Event;
use crate::links::Links;
use ledger_codec::{List, OutOfMemory};
use rand_pcg::Pcg32;
use simulate_parts::{EngineDefinition, Peer, Seats, draw, is_running};

/// Which messages are carried at all.
#[derive(Drop)]
pub struct Rules {
    pub max_size: u32,
    pub channels: Vec<u64>,
}

/// Whether this channel is known.
fn is_known(channels: &[u64], channel: u64) -> bool
    ensures { result ≡ list_any (λ c. c == channel) channels.now }
{
    channels.iter().any(|known| *known == channel)
}

/// Whether a message is carried: it is short enough, on a known channel, and to another peer that runs.
fn is_carried<D: EngineDefinition>(
    rules: &Rules,
    seats: &Seats<D>,
    from: Peer,
    message: &(Peer, u64, List<u8>),
) -> bool
    ensures { result
        ≡ lets_through rules.now.max_size rules.now.channels.items (runs seats.now.entries) from
        message.now }
{
    if message.2.as_slice().len() > rules.max_size as usize {
        return false;
    }
    if !is_known(rules.channels.as_slice(), message.1) {
        return false;
    }
    if !is_running(seats, &message.0) {
        return false;
    }
    message.0 != from
}

#[tactic(auto, unfolding(crate::specs::Messages::sent))]
/// Sends one message: it arrives after the delay that the link draws, if it is carried and not lost.
fn send_one<D: EngineDefinition>(
    rules: &Rules,
    links: &Links,
    words: &mut Pcg32,
    seats: &Seats<D>,
    agenda: &mut Agenda,
    from: Peer,
    message: (Peer, u64, List<u8>),
) -> Result<(), OutOfMemory>
    ensures words { words.new
        ≡ (sent (lets_through rules.now.max_size rules.now.channels.items (runs seats.now.entries) from)
        (link_of links.now from) words.old from message).1 }
    ensures ok { OnOk result (agenda.new
        ≡ record agenda.old {
          events = agenda.old.events
              ++ (sent
              (lets_through rules.now.max_size rules.now.channels.items (runs seats.now.entries) from)
              (link_of links.now from) words.old from message).0;
        }) }
{
    if !is_carried(rules, seats, from, &message) {
        return Ok(());
    }
    let (to, channel, bytes) = message;
    let link = links.get(from, to);
    match draw(words, &link) {
        Some(delay) => agenda.after(
            delay,
            Event::Received {
                from,
                to,
                channel,
                bytes,
            },
        ),
        None => Ok(()),
    }
}

/// Sends the messages of a step, in order.
pub fn send_all<D: EngineDefinition>(
    rules: &Rules,
    links: &Links,
    words: &mut Pcg32,
    seats: &Seats<D>,
    agenda: &mut Agenda,
    from: Peer,
    messages: Vec<(Peer, u64, List<u8>)>,
) -> Result<(), OutOfMemory>
    ensures words { OnOk result (words.new
        ≡ (delivered
        (lets_through rules.now.max_size rules.now.channels.items (runs seats.now.entries) from)
        (link_of links.now from) words.old from messages.items).1) }
    ensures agenda { OnOk result (agenda.new
        ≡ record agenda.old {
          events = agenda.old.events
              ++ (delivered
              (lets_through rules.now.max_size rules.now.channels.items (runs seats.now.entries) from)
              (link_of links.now from) words.old from messages.items).0;
        }) }
{
    for message in messages {
        send_one(rules, links, words, seats, agenda, from, message)?;
    }
    Ok(())
}

/// Sets the timers of a step, in order.
pub fn set_timers(
    agenda: &mut Agenda,
    pk: Peer,
    birth: u64,
    delays: &[u64],
) -> Result<(), OutOfMemory>
    ensures { OnOk result
        (agenda.new ≡ record agenda.old { events = agenda.old.events ++ timers_of pk birth delays.now }) }
{
    for delay in delays {
        agenda.after(*delay, Event::Timer { pk, birth })?;
    }
    Ok(())
}
