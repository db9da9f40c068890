//! Commands written out.
use super::expression::push_expr;
use super::{push_name, push_place};
use lang_model::syntax::{Command, Expr, FileText, Let, Name, Row};
use std::alloc::Global;
use std::test::Fail;

fn push_file(out: &mut String, file: &FileText) -> Result<(), Fail> {
    out.push_str(" \"")?;
    out.push_str(str::from_utf8(file.bytes())?)?;
    out.push_str("\"")?;
    Ok(())
}

fn push_row(alloc: Global, out: &mut String, row: &Row) -> Result<(), Fail> {
    out.push_str(format!(in alloc; " {}", row.row)?.as_str())?;
    push_place(alloc, out, row.at)?;
    out.push_str(":")?;
    'columns: for column in row.cols.as_slice() {
        out.push_str(format!(in alloc; " {}", column.col)?.as_str())?;
        push_place(alloc, out, column.at)?;
    }
    out.push_str(";")?;
    Ok(())
}

fn push_value(alloc: Global, out: &mut String, word: &str, value: &Expr) -> Result<(), Fail> {
    out.push_str(word)?;
    out.push_str(" ")?;
    push_expr(alloc, out, value)
}

fn push_named(out: &mut String, word: &str, name: &Name) -> Result<(), Fail> {
    out.push_str(word)?;
    out.push_str(" ")?;
    push_name(out, name)
}

/// The rows of a listed relation, after its sizes.
fn push_rows(alloc: Global, out: &mut String, rows: &[Row]) -> Result<(), Fail> {
    out.push_str(" {")?;
    'rows: for row in rows {
        push_row(alloc, out, row)?;
    }
    out.push_str(" }")?;
    Ok(())
}

/// The assignments of a block, each with its LET and a semicolon.
fn push_lets(alloc: Global, out: &mut String, lets: &[Let]) -> Result<(), Fail> {
    'lets: for assignment in lets {
        push_named(out, " LET", &assignment.name)?;
        push_place(alloc, out, assignment.at)?;
        push_value(alloc, out, " =", &assignment.value)?;
        out.push_str(";")?;
    }
    Ok(())
}

/// Writes a command out.
pub fn push_command(alloc: Global, out: &mut String, command: &Command) -> Result<(), Fail> {
    match command {
        Command::Relation {
            name,
            rows,
            rows_at,
            cols,
            cols_at,
            list,
        } => {
            push_named(out, "REL", name)?;
            out.push_str(format!(in alloc; " {rows}")?.as_str())?;
            push_place(alloc, out, *rows_at)?;
            out.push_str(format!(in alloc; " {cols}")?.as_str())?;
            push_place(alloc, out, *cols_at)?;
            push_rows(alloc, out, list.as_slice())
        }
        Command::Let { name, value } => {
            push_named(out, "LET", name)?;
            push_value(alloc, out, " =", value)
        }
        Command::Print { value } => push_value(alloc, out, "PRINT", value),
        Command::List { value } => push_value(alloc, out, "LIST", value),
        Command::Count { value } => push_value(alloc, out, "COUNT", value),
        Command::Typed { value } => push_value(alloc, out, "TYPE", value),
        Command::Remove { at, name } => {
            push_named(out, "DROP", name)?;
            push_place(alloc, out, *at)
        }
        Command::Snap { name } => push_named(out, "SNAP", name),
        Command::At { at, name, value } => {
            push_named(out, "AT", name)?;
            push_place(alloc, out, *at)?;
            push_value(alloc, out, " PRINT", value)
        }
        Command::Load { name, file } => {
            push_named(out, "LOAD", name)?;
            push_file(out, file)
        }
        Command::Save { value, file } => {
            push_value(alloc, out, "SAVE", value)?;
            push_file(out, file)
        }
        Command::LoadAll { file } => {
            out.push_str("LOAD ALL")?;
            push_file(out, file)
        }
        Command::SaveAll { file } => {
            out.push_str("SAVE ALL")?;
            push_file(out, file)
        }
        Command::Atomic { lets } => {
            out.push_str("ATOMIC")?;
            push_lets(alloc, out, lets.as_slice())?;
            out.push_str(" COMMIT")?;
            Ok(())
        }
        Command::Explain { value } => push_value(alloc, out, "EXPLAIN", value),
    }
}
