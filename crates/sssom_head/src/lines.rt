//! The header lines of a table, and their contents.

ghost use Rattle.std.specs.Prelude.{◌≡◌, ◌≤◌, ◌+◌, ◌∷◌, [], length, MatchOption, IfSome};
ghost use Rattle.sssom_head.specs.Lines.{header_lines, first_line_end, begins_with_hash, less_line_end, is_space_or_tab, trimmed_end, trimmed, content_of};

pub fn begins_with_hash(bytes: &[u8]) -> bool
    ensures { result ≡ begins_with_hash bytes.now }
{
    match bytes.first() {
        Some(byte) => *byte == b'#',
        None => false,
    }
}

fn line_end(text: &[u8]) -> usize
    ensures end { result ≡ first_line_end text.now }
    ensures within { result ≤ length text.now }
{
    let mut end = 0;
    for byte in text {
        end += 1;
        if *byte == b'\n' {
            return end;
        }
    }
    end
}

/// The first line of a text, if it begins with `#`, and what follows it.
#[tactic(auto, using(crate::proofs::LineLaws::first_header_line, crate::proofs::LineLaws::no_header_line, crate::proofs::LineLaws::some_text))]
pub fn split_header_line(text: &[u8]) -> Option<(&[u8], &[u8])>
    ensures lines { MatchOption result (header_lines text.now ≡ [])
        (λ parts. header_lines text.now ≡ parts.0.now ∷ header_lines parts.1.now) }
    ensures whole { IfSome result (λ parts.
        (length parts.0.now + length parts.1.now ≡ length text.now) × (1 ≤ length parts.0.now)) }
{
    if begins_with_hash(text) {
        Some(text.split_at(line_end(text)))
    } else {
        None
    }
}

fn less_line_end(line: &[u8]) -> &[u8]
    ensures { result.now ≡ less_line_end line.now }
{
    match line.strip_suffix(b"\n") {
        Some(front) => front.strip_suffix(b"\r").unwrap_or(front),
        None => line,
    }
}

fn is_space_or_tab(byte: u8) -> bool
    ensures { result ≡ is_space_or_tab byte }
{
    matches!(byte, b' ' | b'\t')
}

fn trimmed_end(text: &[u8]) -> usize
    ensures end { result ≡ trimmed_end text.now }
    ensures within { result ≤ length text.now }
{
    let mut end = 0;
    for (i, byte) in text.iter().enumerate() {
        if !is_space_or_tab(*byte) {
            end = i + 1;
        }
    }
    end
}

/// What follows the `#` of a line, without the line's end and without spaces and tabs before that.
pub fn content_of(line: &[u8]) -> &[u8]
    requires { 1 ≤ length line.now }
    ensures { result.now ≡ content_of line.now }
{
    let text = less_line_end(&line[1..]);
    &text[..trimmed_end(text)]
}
