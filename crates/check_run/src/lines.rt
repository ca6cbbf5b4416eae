//! The line of a verdict.

ghost use Rattle.std.specs.Prelude.{◌≡◌, IfOk, slice_index_or, [], string_bytes};
ghost use Rattle.check_run.specs.Lines.{class_iris, item_text, source_text, usage_line, verdict_line};

use check_items::BadItem;
use fact_table::Source;
use std::alloc::{AllocError, Global};
use text_names::NameTable;

/// The line of words that are no command.
pub fn usage_line() -> &'static [u8]
    ensures { result.now ≡ usage_line }
{
    b"alodcheck: usage: alodcheck [--el-part] LEFT RIGHT MAP OUT EVIDENCE, or alodcheck --refused \
[--el-part] LEFT RIGHT EVIDENCE\n"
}

// The IRI of the class with this node.
fn class_iri(classes: &NameTable, node: u32) -> &str
    ensures { result.now ≡ slice_index_or (class_iris classes.now.names) node [] }
{
    if node == 0 {
        return "http://www.w3.org/2002/07/owl#Thing";
    }
    if node == 1 {
        return "http://www.w3.org/2002/07/owl#Nothing";
    }
    let class = node - 2;
    if class >= classes.len() {
        return "";
    }
    classes.at(class).as_str()
}

fn source_text(alloc: Global, source: Source) -> Result<String, AllocError>
    ensures { IfOk result (λ text. string_bytes text ≡ source_text source) }
{
    match source {
        Source::Left(number) => format!(in alloc; "axiom left {number}"),
        Source::Right(number) => format!(in alloc; "axiom right {number}"),
        Source::Row { rank, number } => format!(in alloc; "axiom row {rank} {number}"),
        Source::Nothing => format!(in alloc; "axiom"),
    }
}

// What is said of an item that fails.
fn item_text(alloc: Global, classes: &NameTable, item: BadItem) -> Result<String, AllocError>
    ensures { IfOk result (λ text. string_bytes text ≡ item_text classes.now.names item) }
{
    match item {
        BadItem::Version => format!(in alloc; "evidence version"),
        BadItem::Line(number) => format!(in alloc; "evidence line {number}"),
        BadItem::Length(number) => {
            format!(in alloc; "evidence ends in the section of line {number}")
        }
        BadItem::Kind => format!(in alloc; "evidence kind"),
        BadItem::Omitted => format!(in alloc; "omitted axioms"),
        BadItem::Nodes => format!(in alloc; "nodes"),
        BadItem::Roles => format!(in alloc; "roles"),
        BadItem::Removed(row) => format!(in alloc; "no row {row}"),
        BadItem::Output => format!(in alloc; "OUT is not the repaired table"),
        BadItem::Step { row, number } => format!(in alloc; "row {row} step {number}"),
        BadItem::Goal(row) => format!(in alloc; "row {row} shows no empty class"),
        BadItem::Form => format!(in alloc; "model form"),
        BadItem::Axiom(source) => source_text(alloc, source),
        BadItem::Class(node) => {
            let iri = class_iri(classes, node);
            format!(in alloc; "class <{iri}> has no member")
        }
        BadItem::Journal(number) => format!(in alloc; "journal entry {number}"),
        BadItem::End => format!(in alloc; "journal end"),
    }
}

/// The line of a verdict: none of the items fails, or this is the first that does.
pub fn verdict_line(
    alloc: Global,
    classes: &NameTable,
    verdict: Option<BadItem>,
) -> Result<String, AllocError>
    ensures { IfOk result (λ line.
        string_bytes line ≡ verdict_line classes.now.names verdict) }
{
    match verdict {
        None => format!(in alloc; "alodcheck: yes\n"),
        Some(item) => {
            let text = item_text(alloc, classes, item)?;
            format!(in alloc; "alodcheck: no: {text}\n")
        }
    }
}
