//! Numbers and lines, read and written.

use crate::{Cursor, Fields, end_line, long_number, put_field, put_number, short_number};
use std::test::Fail;
use text_names::Bytes;

#[test]
fn reads_numbers(rt: HostRuntime) {
    let rows: [(&[u8], Option<u64>, Option<u32>); 12] = [
        (b"0", Some(0), Some(0)),
        (b"7", Some(7), Some(7)),
        (b"4294967295", Some(4294967295), Some(4294967295)),
        (b"4294967296", Some(4294967296), None),
        (b"18446744073709551615", Some(18446744073709551615), None),
        (b"18446744073709551616", None, None),
        (b"99999999999999999999999", None, None),
        (b"", None, None),
        (b"00", None, None),
        (b"01", None, None),
        (b"+1", None, None),
        (b"1a", None, None),
    ];
    for (field, long, short) in rows {
        assert_eq!(rt; long_number(field), long, "{field:?}");
        assert_eq!(rt; short_number(field), short, "{field:?}");
    }
}

// The number of fields.
fn count(fields: Fields<'_>) -> usize {
    let mut left = fields;
    for found in 0..100 {
        let Some((_, rest)) = left.next() else {
            return found;
        };
        left = rest;
    }
    100
}

#[test]
fn reads_lines(rt: HostRuntime) {
    let mut cursor = Cursor::new(b"a bc\n\n d\r\nlast");
    let mut number = 0u64;
    for fields in [2, 1, 2, 0] {
        let Some((found, next)) = cursor.next() else {
            break;
        };
        number = number.wrapping_add(1);
        assert_eq!(rt; count(found), fields);
        assert_eq!(rt; next.read(), number);
        cursor = next;
    }
    assert_eq!(rt; number, 4);
    assert!(rt; cursor.next().is_none());
}

#[test]
fn writes_lines(rt: HostRuntime) -> Result<(), Fail> {
    let mut text = Bytes::copy_of(rt.alloc(), b"word")?;
    put_field(&mut text, b"other")?;
    put_number(&mut text, 18446744073709551615)?;
    end_line(&mut text)?;
    assert_eq!(rt;
        text.as_slice(),
        b"word other 18446744073709551615\n".as_slice()
    );
    Ok(())
}
