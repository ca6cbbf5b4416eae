//! Where gaps and tokens end. Each function is given the bytes of a text from the offset `at` on.

ghost use Rattle.std.specs.Prelude.{◌≡◌, ◌≤◌, ◌<◌, ◌+◌, ◌^◌, length, IfSome};
ghost use Rattle.std.specs.List.{prefix_len};
ghost use Rattle.ofn_lex.specs.Bytes.{is_language_byte, is_run_byte};
ghost use Rattle.ofn_lex.specs.Ends.{gap_end, iri_end, quoted_end, span_end, some_span_end, carets_end};

use crate::bytes::{
    ends_line, is_escaped, is_iri_byte, is_language_byte, is_run_byte, is_white_space,
};

pub fn gap_end(at: usize, bytes: &[u8]) -> usize
    requires { at + length bytes.now < 2 ^ 63 }
    ensures end { result ≡ gap_end at bytes.now }
    ensures from { at ≤ result }
    ensures within { result ≤ at + length bytes.now }
{
    let mut in_comment = false;
    let mut end = at;
    for byte in bytes {
        if in_comment {
            in_comment = !ends_line(*byte);
            end += 1;
            continue;
        }
        if is_white_space(*byte) {
            end += 1;
            continue;
        }
        if *byte != b'#' {
            return end;
        }
        in_comment = true;
        end += 1;
    }
    end
}

// After `<`.
pub fn iri_end(at: usize, bytes: &[u8]) -> Option<usize>
    requires { at + length bytes.now < 2 ^ 63 }
    ensures end { result ≡ iri_end at bytes.now }
    ensures from { IfSome result (λ n. at ≤ n) }
    ensures within { IfSome result (λ n. n ≤ at + length bytes.now) }
{
    let mut end = at;
    for byte in bytes {
        end += 1;
        if *byte == b'>' {
            return Some(end);
        }
        if !is_iri_byte(*byte) {
            return None;
        }
    }
    None
}

// After the first quotation mark.
pub fn quoted_end(at: usize, bytes: &[u8]) -> Option<usize>
    requires { at + length bytes.now < 2 ^ 63 }
    ensures end { result ≡ quoted_end at bytes.now }
    ensures from { IfSome result (λ n. at ≤ n) }
    ensures within { IfSome result (λ n. n ≤ at + length bytes.now) }
{
    let mut in_escape = false;
    let mut end = at;
    for byte in bytes {
        end += 1;
        if in_escape {
            if !is_escaped(*byte) {
                return None;
            }
            in_escape = false;
            continue;
        }
        if *byte == b'"' {
            return Some(end);
        }
        in_escape = *byte == b'\\';
    }
    None
}

pub fn run_end(at: usize, bytes: &[u8]) -> usize
    requires { at + length bytes.now < 2 ^ 63 }
    ensures end { result ≡ span_end is_run_byte at bytes.now }
    ensures from { at ≤ result }
    ensures within { result ≤ at + length bytes.now }
{
    at + run_len(bytes)
}

fn run_len(bytes: &[u8]) -> usize
    ensures len { result ≡ prefix_len is_run_byte bytes.now }
    ensures within { result ≤ length bytes.now }
{
    bytes.iter().take_while(|byte| is_run_byte(**byte)).count()
}

// After `@`.
pub fn language_end(at: usize, bytes: &[u8]) -> Option<usize>
    requires { at + length bytes.now < 2 ^ 63 }
    ensures end { result ≡ some_span_end is_language_byte at bytes.now }
    ensures from { IfSome result (λ n. at ≤ n) }
    ensures within { IfSome result (λ n. n ≤ at + length bytes.now) }
{
    let [first, rest @ ..] = bytes else {
        return None;
    };
    if !is_language_byte(*first) {
        return None;
    }
    Some(subtags_end(at + 1, rest))
}

fn subtags_end(at: usize, bytes: &[u8]) -> usize
    requires { at + length bytes.now < 2 ^ 63 }
    ensures end { result ≡ span_end is_language_byte at bytes.now }
    ensures from { at ≤ result }
    ensures within { result ≤ at + length bytes.now }
{
    at + language_len(bytes)
}

fn language_len(bytes: &[u8]) -> usize
    ensures len { result ≡ prefix_len is_language_byte bytes.now }
    ensures within { result ≤ length bytes.now }
{
    bytes
        .iter()
        .take_while(|byte| is_language_byte(**byte))
        .count()
}

// After the first `^`.
pub fn carets_end(at: usize, bytes: &[u8]) -> Option<usize>
    requires { at + length bytes.now < 2 ^ 63 }
    ensures end { result ≡ carets_end at bytes.now }
    ensures from { IfSome result (λ n. at ≤ n) }
    ensures within { IfSome result (λ n. n ≤ at + length bytes.now) }
{
    match bytes.first() {
        Some(b'^') => Some(at + 1),
        _ => None,
    }
}
