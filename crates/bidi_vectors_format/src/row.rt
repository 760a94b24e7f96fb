//! Rows and their fields.

use crate::fault::{RowFault, Why};
use std::alloc::Global;

/// A field of a row: its key, its value, and its line number.
#[derive(Clone, Copy)]
pub struct Field<'t> {
    pub key: &'t str,
    pub value: &'t str,
    pub line: usize,
}

/// A row: its kind, its name, the number of its first line, and its fields.
#[derive(Drop)]
pub struct Row<'t> {
    pub kind: &'t str,
    pub name: &'t str,
    pub line: usize,
    pub fields: Vec<Field<'t>>,
}

impl<'t> Row<'t> {
    /// Returns its first field with this key.
    pub fn get(&self, key: &str) -> Option<Field<'t>> {
        for field in &self.fields {
            if field.key == key {
                return Some(*field);
            }
        }
        None
    }

    /// Returns its first field with this key, or an error if there is none.
    pub fn field(&self, key: &str) -> Result<Field<'t>, RowFault> {
        match self.get(key) {
            Some(field) => Ok(field),
            None => Err(RowFault::Line(self.line, Why::MissingField)),
        }
    }

    /// Checks that every field has one of these keys, and that none occurs twice.
    pub fn has_only(&self, keys: &[&str]) -> Result<(), RowFault> {
        self.has_only_or_many(keys, &[])
    }

    /// Checks that every field has a key of `keys` or `many`, and that none of `keys` occurs twice.
    pub fn has_only_or_many(&self, keys: &[&str], many: &[&str]) -> Result<(), RowFault> {
        for field in &self.fields {
            if is_among(many, field.key) {
                continue;
            }
            if !is_among(keys, field.key) {
                return Err(RowFault::Line(field.line, Why::OtherField));
            }
            let first = self.field(field.key)?;
            if first.line != field.line {
                return Err(RowFault::Line(field.line, Why::TwiceField));
            }
        }
        Ok(())
    }
}

fn is_among(keys: &[&str], key: &str) -> bool {
    for one in keys {
        if *one == key {
            return true;
        }
    }
    false
}

// Splits a row's first line into its kind and its name.
fn head_of(line: &str) -> Option<(&str, &str)> {
    let rest = line.strip_prefix("[")?;
    let (kind, name) = rest.split_once("] ")?;
    Some((kind, name.trim()))
}

/// Returns the rows of a file, in order.
pub fn rows_of<'t>(alloc: Global, text: &'t str) -> Result<Vec<Row<'t>>, RowFault> {
    let mut rows: Vec<Row<'t>> = Vec::new(alloc);
    for (index, line) in text.lines().enumerate() {
        let number = index.saturating_add(1);
        let line = line.trim();
        if line.is_empty() || line.starts_with("#") {
            continue;
        }
        match head_of(line) {
            Some((kind, name)) => rows.push(Row {
                kind,
                name,
                line: number,
                fields: Vec::new(alloc),
            })?,
            None => push_field(&mut rows, number, line)?,
        }
    }
    Ok(rows)
}

// Adds a field to the last row.
fn push_field<'t>(rows: &mut Vec<Row<'t>>, number: usize, line: &'t str) -> Result<(), RowFault> {
    let Some((key, value)) = line.split_once(":") else {
        return Err(RowFault::Line(number, Why::NoField));
    };
    let Some(row) = rows.last_mut() else {
        return Err(RowFault::Line(number, Why::NoRow));
    };
    row.fields.push(Field {
        key: key.trim(),
        value: value.trim(),
        line: number,
    })?;
    Ok(())
}
