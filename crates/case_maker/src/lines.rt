//! The lines of the made case that are there for each number.

ghost use Rattle.std.specs.Prelude.{◌≡◌, ◌<◌, ◌≤◌, ◌++◌, IfOk, OnOk, string_bytes};
ghost use Rattle.case_maker.specs.MadeCase.{disjoint_line, successor_line, subclass_line, first_row, second_row, third_row, rows_of, lines_for};
ghost use Rattle.case_maker.specs.Inside.Lines.{line_of};

use std::alloc::{AllocError, Global};
use text_names::Bytes;

/// What a line says of its number.
#[derive(Clone, Copy, Debug)]
pub enum Line {
    Disjoint,
    Successor,
    SubClass,
    Rows,
}

fn disjoint_line(alloc: Global, i: u32) -> Result<String, AllocError>
    ensures { IfOk result (λ line. string_bytes line ≡ disjoint_line i) }
{
    format!(in alloc; "DisjointClasses(:A{i} :B{i})\n")
}

fn successor_line(alloc: Global, i: u32) -> Result<String, AllocError>
    requires { i ≤ 10000 }
    ensures { IfOk result (λ line. string_bytes line ≡ successor_line i) }
{
    let j = i + 1;
    format!(in alloc; "SubClassOf(:A{i} ObjectSomeValuesFrom(:p :A{j}))\n")
}

fn subclass_line(alloc: Global, i: u32) -> Result<String, AllocError>
    ensures { IfOk result (λ line. string_bytes line ≡ subclass_line i) }
{
    format!(in alloc; "SubClassOf(:X{i} :Y{i})\n")
}

fn first_row(alloc: Global, i: u32) -> Result<String, AllocError>
    ensures { IfOk result (λ row. string_bytes row ≡ first_row i) }
{
    format!(in alloc; "l:A{i}\tskos:exactMatch\tr:X{i}\t0.9\n")
}

fn second_row(alloc: Global, i: u32) -> Result<String, AllocError>
    ensures { IfOk result (λ row. string_bytes row ≡ second_row i) }
{
    format!(in alloc; "l:B{i}\tskos:exactMatch\tr:Y{i}\t0.8\n")
}

fn third_row(alloc: Global, i: u32) -> Result<String, AllocError>
    ensures { IfOk result (λ row. string_bytes row ≡ third_row i) }
{
    format!(in alloc; "l:B{i}\tskos:broadMatch\tr:Y{i}\t0.7\n")
}

fn rows_of(alloc: Global, i: u32) -> Result<String, AllocError>
    ensures { IfOk result (λ rows. string_bytes rows ≡ rows_of i) }
{
    let mut rows = first_row(alloc, i)?;
    let second = second_row(alloc, i)?;
    rows.push_str(second.as_str())?;
    let third = third_row(alloc, i)?;
    rows.push_str(third.as_str())?;
    Ok(rows)
}

fn line_of(alloc: Global, line: Line, i: u32) -> Result<String, AllocError>
    requires { i ≤ 10000 }
    ensures { IfOk result (λ text. string_bytes text ≡ line_of line i) }
{
    match line {
        Line::Disjoint => disjoint_line(alloc, i),
        Line::Successor => successor_line(alloc, i),
        Line::SubClass => subclass_line(alloc, i),
        Line::Rows => rows_of(alloc, i),
    }
}

fn append_line(alloc: Global, text: &mut Bytes, line: Line, i: u32) -> Result<(), AllocError>
    requires { i ≤ 10000 }
    ensures { OnOk result (text.new ≡ text.old ++ line_of line i) }
{
    let more = line_of(alloc, line, i)?;
    text.append(more.as_bytes())
}

/// Appends the lines for the numbers from 1 to a count.
pub fn append_lines(
    alloc: Global,
    text: &mut Bytes,
    line: Line,
    count: u32,
) -> Result<(), AllocError>
    requires { count ≤ 10000 }
    ensures { OnOk result (text.new ≡ text.old ++ lines_for (line_of line) count) }
{
    for before in 0..count {
        append_line(alloc, text, line, before + 1)?;
    }
    Ok(())
}
