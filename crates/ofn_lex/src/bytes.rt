//! The bytes that gaps and tokens are made of.

ghost use Rattle.std.specs.Prelude.{◌≡◌};
ghost use Rattle.ofn_lex.specs.Bytes.{ends_line, is_white_space, is_iri_byte, is_escaped, is_language_byte, is_mark, is_run_byte};

pub fn ends_line(byte: u8) -> bool
    ensures { result ≡ ends_line byte }
{
    matches!(byte, b'\n' | b'\r')
}

pub fn is_white_space(byte: u8) -> bool
    ensures { result ≡ is_white_space byte }
{
    matches!(byte, b' ' | b'\t') || ends_line(byte)
}

pub fn is_iri_byte(byte: u8) -> bool
    ensures { result ≡ is_iri_byte byte }
{
    byte > b' ' && byte != b'<' && byte != b'>'
}

pub fn is_escaped(byte: u8) -> bool
    ensures { result ≡ is_escaped byte }
{
    matches!(byte, b'"' | b'\\')
}

pub fn is_language_byte(byte: u8) -> bool
    ensures { result ≡ is_language_byte byte }
{
    matches!(byte, b'0'..=b'9' | b'A'..=b'Z' | b'a'..=b'z' | b'-')
}

pub fn is_run_byte(byte: u8) -> bool
    ensures { result ≡ is_run_byte byte }
{
    !is_white_space(byte) && !is_mark(byte)
}

fn is_mark(byte: u8) -> bool
    ensures { result ≡ is_mark byte }
{
    matches!(
        byte,
        b'(' | b')' | b'<' | b'>' | b'"' | b'=' | b'#' | b'@' | b'^' | b'\\'
    )
}
