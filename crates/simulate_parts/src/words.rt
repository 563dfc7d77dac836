//! The delay of a message by the words of a generator.
ghost use Rattle.std.specs.Prelude.{◌≡◌};
ghost use Rattle.simulate_parts.specs.Draw.{drawn};

use crate::link::SimLink;
use rand_core::utils::NextWord;
use rand_pcg::Pcg32;

/// The delay of the next message over a link in milliseconds, None where the message is lost. A lost
/// message takes one word of the generator, another one two.
pub fn draw(words: &mut Pcg32, link: &SimLink) -> Option<u64>
    ensures { (result, words.new) ≡ drawn words.old link.now }
{
    let chance = words.next_word();
    if chance % link.success.den >= link.success.num {
        return None;
    }
    let word = u64::from(words.next_word());
    let spread = if link.jitter == u64::MAX {
        word
    } else {
        word % (link.jitter + 1)
    };
    Some(link.latency.saturating_add(spread))
}
