//! A text cut at each byte of one kind, part by part, with nothing kept of it.
ghost use Rattle.std.specs.Prelude.{◌≡◌, ◌∷◌, ◌==◌, ◌<◌, ◌≤◌, ◌+◌, length, position, IfSome};
ghost use Rattle.std.specs.List.{slice_split};
ghost use Rattle.ledger_job.specs.Lines.{without_end, lines_of};
ghost use Rattle.ledger_job.specs.Parts.{parts_left, bytes_left, Takes};

/// The text without a line feed at its end.
fn without_end(text: &[u8]) -> &[u8]
    ensures { result.now ≡ without_end text.now }
{
    match text {
        [front @ .., b'\n'] => front,
        _ => text,
    }
}

/// What is to be cut at line feeds, so that its parts are the lines of the text.
#[tactic(auto, unfolding(crate::specs::Lines::lines_of))]
pub fn all_lines(text: &[u8]) -> Option<&[u8]>
    ensures lines { parts_left 10 result ≡ lines_of text.now }
    ensures size { bytes_left result ≤ length text.now + 1 }
{
    if text.len() == 0 {
        return None;
    }
    Some(without_end(text))
}

/// Where the text is cut first.
fn place_of(text: &[u8], at: u8) -> Option<usize>
    ensures value { result ≡ position (λ b. b == at) text.now }
    ensures within { IfSome result (λ n. n < length text.now) }
{
    text.iter().position(|byte| *byte == at)
}

/// The first part of the text, and what is left behind the byte at which it was cut.
pub fn cut(text: &[u8], at: u8) -> (&[u8], Option<&[u8]>)
    ensures parts { slice_split (λ b. b == at) text.now ≡ result.0.now ∷ parts_left at result.1 }
    ensures size { bytes_left result.1 < length text.now + 1 }
{
    match place_of(text, at) {
        Some(place) => (&text[..place], Some(&text[place + 1..])),
        None => (text, None),
    }
}

/// The next part, where one is left.
pub(crate) fn next_part<'a>(left: &mut Option<&'a [u8]>, at: u8) -> Option<&'a [u8]>
    ensures { Takes at left.old left.new result }
{
    let text = (*left)?;
    let (part, more) = cut(text, at);
    *left = more;
    Some(part)
}
