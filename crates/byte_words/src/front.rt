//! A text without what it begins with.

ghost use Rattle.std.specs.Prelude.{◌≡◌};
ghost use Rattle.std.specs.Option.{option_map};
ghost use Rattle.byte_words.specs.Fronts.{without_front, without_mark};

/// What follows a front, if the text begins with it.
pub fn without_front<'a>(text: &'a [u8], front: &[u8]) -> Option<&'a [u8]>
    ensures { option_map (λ rest. rest.now) result ≡ without_front front.now text.now }
{
    text.strip_prefix(front)
}

/// The text without its byte order mark, if it begins with one. Of two marks one stays.
pub fn without_mark(text: &[u8]) -> &[u8]
    ensures { result.now ≡ without_mark text.now }
{
    match without_front(text, b"\xef\xbb\xbf") {
        Some(rest) => rest,
        None => text,
    }
}

#[cfg(test)]
mod tests {
    use super::*;

    #[test]
    fn leaves_one_mark_out(rt: HostRuntime) {
        let rows: [(&[u8], &[u8]); 5] = [
            (b"", b""),
            (b"a", b"a"),
            (b"\xef\xbb", b"\xef\xbb"),
            (b"\xef\xbb\xbfa", b"a"),
            (b"\xef\xbb\xbf\xef\xbb\xbf", b"\xef\xbb\xbf"),
        ];
        for (text, rest) in rows {
            assert_eq!(rt; without_mark(text), rest, "{text:?}");
        }
    }
}
