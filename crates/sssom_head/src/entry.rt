//! Entries of a map of prefixes.

ghost use Rattle.std.specs.Prelude.{◌≡◌, ◌≤◌, ◌<◌, ◌+◌, length, IfSome};
ghost use Rattle.std.specs.List.{prefix_len};
ghost use Rattle.std.specs.Option.{option_map};
ghost use Rattle.std.specs.Str.{is_utf8};
ghost use Rattle.sssom_head.specs.Entries.{is_quote, is_quoted_byte, is_key_byte, is_indicator, is_value_byte};
ghost use Rattle.sssom_head.specs.HeaderSteps.{split_some, quote_at, split_quote, key_in, value_in, behind_some_spaces, behind_colon, ends_entry, entry_in, entry_of};

use crate::content::behind_spaces;
use crate::lines::begins_with_hash;

fn is_quote(byte: u8) -> bool
    ensures { result ≡ is_quote byte }
{
    matches!(byte, b'\'' | b'"')
}

fn is_quoted_byte(quote: u8, byte: u8) -> bool
    ensures { result ≡ is_quoted_byte quote byte }
{
    byte != quote && !(quote == b'"' && byte == b'\\')
}

fn is_key_byte(byte: u8) -> bool
    ensures { result ≡ is_key_byte byte }
{
    matches!(byte, b'0'..=b'9' | b'A'..=b'Z' | b'a'..=b'z' | b'_' | b'.' | b'-')
}

fn is_indicator(byte: u8) -> bool
    ensures { result ≡ is_indicator byte }
{
    matches!(
        byte,
        b'[' | b']'
            | b'{'
            | b'}'
            | b','
            | b'&'
            | b'*'
            | b'!'
            | b'|'
            | b'>'
            | b'%'
            | b'@'
            | b'#'
            | b'\''
            | b'"'
            | b'`'
    )
}

fn key_len(text: &[u8]) -> usize
    ensures len { result ≡ prefix_len is_key_byte text.now }
    ensures within { result ≤ length text.now }
{
    text.iter().take_while(|byte| is_key_byte(**byte)).count()
}

fn value_len(text: &[u8]) -> usize
    ensures len { result ≡ prefix_len is_value_byte text.now }
    ensures within { result ≤ length text.now }
{
    text.iter().take_while(|byte| **byte != b' ').count()
}

fn quote_at(quote: u8, text: &[u8]) -> Option<usize>
    ensures at { result ≡ quote_at quote 0 text.now }
    ensures within { IfSome result (λ at. at < length text.now) }
{
    for (i, byte) in text.iter().enumerate() {
        if *byte == quote {
            return Some(i);
        }
        if !is_quoted_byte(quote, *byte) {
            return None;
        }
    }
    None
}

fn split_some(len: usize, text: &[u8]) -> Option<(&[u8], &[u8])>
    requires { len ≤ length text.now }
    ensures { option_map (λ parts. (parts.0.now, parts.1.now)) result ≡ split_some len text.now }
{
    if len == 0 {
        return None;
    }
    Some(text.split_at(len))
}

fn split_quote(quote: u8, text: &[u8]) -> Option<(&[u8], &[u8])>
    ensures { option_map (λ parts. (parts.0.now, parts.1.now)) result ≡
        split_quote text.now (quote_at quote 0 text.now) }
{
    match quote_at(quote, text) {
        Some(at) => Some((&text[..at], &text[at + 1..])),
        None => None,
    }
}

fn split_key(text: &[u8]) -> Option<(&[u8], &[u8])>
    ensures { option_map (λ parts. (parts.0.now, parts.1.now)) result ≡ key_in text.now }
{
    let [first, rest @ ..] = text else {
        return None;
    };
    if is_quote(*first) {
        split_quote(*first, rest)
    } else {
        split_some(key_len(text), text)
    }
}

fn split_value(text: &[u8]) -> Option<(&[u8], &[u8])>
    ensures { option_map (λ parts. (parts.0.now, parts.1.now)) result ≡ value_in text.now }
{
    let [first, rest @ ..] = text else {
        return None;
    };
    if is_quote(*first) {
        return split_quote(*first, rest);
    }
    if is_indicator(*first) {
        return None;
    }
    split_some(value_len(text), text)
}

fn behind_some_spaces(text: &[u8]) -> Option<&[u8]>
    ensures { option_map (λ rest. rest.now) result ≡ behind_some_spaces text.now }
{
    let [first, rest @ ..] = text else {
        return None;
    };
    if *first == b' ' {
        Some(behind_spaces(rest))
    } else {
        None
    }
}

fn behind_colon(text: &[u8]) -> Option<&[u8]>
    ensures { option_map (λ rest. rest.now) result ≡ behind_colon text.now }
{
    let [first, rest @ ..] = text else {
        return None;
    };
    if *first == b':' {
        behind_some_spaces(rest)
    } else {
        None
    }
}

fn ends_entry(text: &[u8]) -> bool
    ensures { result ≡ ends_entry text.now }
{
    let [first, rest @ ..] = text else {
        return true;
    };
    *first == b' ' && begins_with_hash(behind_spaces(rest))
}

fn entry_in(text: &[u8]) -> Option<(&[u8], &[u8])>
    ensures { option_map (λ parts. (parts.0.now, parts.1.now)) result ≡ entry_in text.now }
{
    let Some((key, rest)) = split_key(text) else {
        return None;
    };
    let Some(rest) = behind_colon(rest) else {
        return None;
    };
    let Some((value, rest)) = split_value(rest) else {
        return None;
    };
    if ends_entry(rest) {
        Some((key, value))
    } else {
        None
    }
}

fn is_utf8(bytes: &[u8]) -> bool
    ensures { result ≡ is_utf8 bytes.now }
{
    match str::from_utf8(bytes) {
        Ok(_) => true,
        Err(_) => false,
    }
}

/// The key and the value of an entry.
pub fn entry_of(content: &[u8]) -> Option<(&[u8], &[u8])>
    ensures entry { option_map (λ parts. (parts.0.now, parts.1.now)) result ≡ entry_of content.now }
{
    if is_utf8(content) {
        entry_in(behind_spaces(content))
    } else {
        None
    }
}
