//! Lines and columns of a text.

ghost use Rattle.std.specs.Prelude.{◌≡◌, ◌≤◌, IsUtf8, length, take};

/// A line and a column, both counted from 1. A line ends after a line feed, and a column counts
/// characters. Each number stops at `u64::MAX`.
#[derive(Clone, Copy, Debug, PartialEq, Eq)]
pub struct Place {
    pub line: u64,
    pub column: u64,
}

ghost use Rattle.text_names.specs.Place.{place_after};

/// The place in a text of the byte at an offset, or of the end of the text.
pub fn place_of(bytes: &[u8], offset: usize) -> Place
    requires within { offset ≤ length bytes.now }
    requires utf8 { IsUtf8 (take offset bytes.now) }
    ensures { result ≡ place_after (take offset bytes.now) }
{
    let mut line = 1u64;
    let mut column = 1u64;
    for byte in &bytes[..offset] {
        match *byte {
            b'\n' => {
                line = line.saturating_add(1);
                column = 1;
            }
            // A byte that goes on with a character.
            0x80..=0xbf => {}
            _ => column = column.saturating_add(1),
        }
    }
    Place { line, column }
}

#[cfg(test)]
mod tests {
    use super::*;
    use std::test::Fail;

    #[test]
    fn counts_characters(rt: HostRuntime) -> Result<(), Fail> {
        // Characters of one to four bytes, a carriage return and the end.
        let bytes = "aé€😀\r\nb".as_bytes();
        let places = [
            (0, 1, 1),
            (1, 1, 2),
            (3, 1, 3),
            (6, 1, 4),
            (10, 1, 5),
            (11, 1, 6),
            (12, 2, 1),
            (13, 2, 2),
        ];
        for (offset, line, column) in places {
            assert!(rt; offset <= bytes.len());
            str::from_utf8(&bytes[..offset])?;
            assert_eq!(rt;
                place_of(bytes, offset),
                Place { line, column },
                "at {offset}"
            );
        }
        Ok(())
    }
}
