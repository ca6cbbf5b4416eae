//! The three texts.

ghost use Rattle.std.specs.Prelude.{◌≡◌, ◌≤◌, IfOk};
ghost use Rattle.case_maker.specs.MadeCase.{left_text, right_text, table_text};

use crate::lines::{Line, append_lines};
use std::alloc::{AllocError, Global};
use text_names::Bytes;

/// Two documents and a table of mappings between them.
#[derive(Debug, Drop)]
pub struct Made {
    pub left: Bytes,
    pub right: Bytes,
    pub table: Bytes,
}

fn left_text(alloc: Global, n: u32) -> Result<Bytes, AllocError>
    requires from { 1 ≤ n }
    requires to { n ≤ 10000 }
    ensures { IfOk result (λ text. text ≡ left_text n) }
{
    let head = b"Prefix(:=<http://example.org/left#>)\nOntology(<http://example.org/left>\n";
    let mut text = Bytes::copy_of(alloc, head)?;
    append_lines(alloc, &mut text, Line::Disjoint, n)?;
    append_lines(alloc, &mut text, Line::Successor, n - 1)?;
    text.append(b")\n")?;
    Ok(text)
}

fn right_text(alloc: Global, n: u32) -> Result<Bytes, AllocError>
    requires { n ≤ 10000 }
    ensures { IfOk result (λ text. text ≡ right_text n) }
{
    let head = b"Prefix(:=<http://example.org/right#>)\nOntology(<http://example.org/right>\n";
    let mut text = Bytes::copy_of(alloc, head)?;
    append_lines(alloc, &mut text, Line::SubClass, n)?;
    text.append(b")\n")?;
    Ok(text)
}

fn table_text(alloc: Global, n: u32) -> Result<Bytes, AllocError>
    requires { n ≤ 10000 }
    ensures { IfOk result (λ text. text ≡ table_text n) }
{
    let mut text = Bytes::copy_of(alloc, b"#curie_map:\n#  l: http://example.org/left#\n")?;
    text.append(b"#  r: http://example.org/right#\n")?;
    text.append(b"subject_id\tpredicate_id\tobject_id\tconfidence\n")?;
    append_lines(alloc, &mut text, Line::Rows, n)?;
    Ok(text)
}

/// The made case over n groups of classes, for n from 1 to 10,000. Of its 3n mappings the repair
/// removes the rows 2, 5, 8 and so on.
pub fn make(alloc: Global, n: u32) -> Result<Made, AllocError>
    requires from { 1 ≤ n }
    requires to { n ≤ 10000 }
    ensures left { IfOk result (λ made. made.left ≡ left_text n) }
    ensures right { IfOk result (λ made. made.right ≡ right_text n) }
    ensures table { IfOk result (λ made. made.table ≡ table_text n) }
{
    let left = left_text(alloc, n)?;
    let right = right_text(alloc, n)?;
    let table = table_text(alloc, n)?;
    Ok(Made { left, right, table })
}
