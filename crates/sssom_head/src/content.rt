//! What the content of a header line is.

ghost use Rattle.std.specs.Prelude.{◌≡◌, ◌≤◌, length};
ghost use Rattle.std.specs.Option.{option_map};
ghost use Rattle.sssom_head.specs.Contents.{indentation, behind_spaces, is_blank, map_text, is_empty_map};

use crate::lines::begins_with_hash;
use byte_words::without_front;

/// How many spaces a content begins with.
pub fn indentation(content: &[u8]) -> usize
    ensures indentation { result ≡ indentation content.now }
    ensures within { result ≤ length content.now }
{
    content.iter().take_while(|byte| **byte == b' ').count()
}

#[tactic(auto, using(crate::proofs::LineLaws::drop_spaces))]
pub fn behind_spaces(content: &[u8]) -> &[u8]
    ensures { result.now ≡ behind_spaces content.now }
{
    content.split_at(indentation(content)).1
}

pub fn is_blank(content: &[u8]) -> bool
    ensures { result ≡ is_blank content.now }
{
    content.is_empty() || begins_with_hash(behind_spaces(content))
}

/// What follows `curie_map:`, in a line with which a map may begin.
pub fn map_text(content: &[u8]) -> Option<&[u8]>
    ensures { option_map (λ text. text.now) result ≡ map_text content.now }
{
    if indentation(content) > 1 {
        return None;
    }
    without_front(behind_spaces(content), b"curie_map:")
}

pub fn is_empty_map(text: &[u8]) -> bool
    ensures { result ≡ is_empty_map text.now }
{
    behind_spaces(text) == b"{}".as_slice()
}
