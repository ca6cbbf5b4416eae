//! Where a text is parted.

ghost use Rattle.std.specs.Prelude.{◌≡◌, ◌≤◌, ◌<◌, ◌==◌, [], ◌∷◌, length, MatchOption, IfSome};
ghost use Rattle.std.specs.List.{position_or_len, slice_split};

// The place of the first such byte, or the text's length.
fn place_of(text: &[u8], part: u8) -> usize
    ensures place { result ≡ position_or_len (λ b. b == part) text.now }
    ensures within { result ≤ length text.now }
{
    for (at, byte) in text.iter().enumerate() {
        if *byte == part {
            return at;
        }
    }
    text.len()
}

/// What is before the first such byte, and what is after it.
#[tactic(auto, using(crate::proofs::PieceLaws::first_piece, crate::proofs::PieceLaws::only_piece))]
pub fn parted(text: &[u8], part: u8) -> Option<(&[u8], &[u8])>
    ensures pieces { let pieces = slice_split (λ b. b == part) in
        MatchOption result (pieces text.now ≡ text.now ∷ [])
        (λ x. pieces text.now ≡ x.0.now ∷ pieces x.1.now) }
    ensures shorter { IfSome result (λ x. length x.1.now < length text.now) }
{
    let place = place_of(text, part);
    if place < text.len() {
        Some((&text[..place], &text[place + 1..]))
    } else {
        None
    }
}
