//! The tables of classes and brackets that rows name.

use crate::class::class_of;
use crate::fault::{RowFault, Why};
use crate::row::{Field, Row};
use crate::text::char_of;
use bidi_base::char_data::BidiClass;
use bidi_base::data_source::TableBidiData;
use std::alloc::Global;

/// The ranges and the brackets of a table.
#[derive(Drop)]
pub struct Tables {
    pub ranges: Vec<(char, char, BidiClass)>,
    pub brackets: Vec<(char, char, Option<char>)>,
}

// Parses a field such as `a..z L` as a range with its class.
fn range_of(field: Field<'_>) -> Result<(char, char, BidiClass), RowFault> {
    let wanted = RowFault::Line(field.line, Why::ClassRange);
    let (ends, class) = field.value.split_once(" ").ok_or(wanted)?;
    let (first, last) = ends.split_once("..").ok_or(wanted)?;
    Ok((
        char_of(first, field.line)?,
        char_of(last, field.line)?,
        class_of(class, field.line)?,
    ))
}

// Parses a field such as `U+2329 U+232A U+3008` as a bracket pair, with its normal form if it has one.
fn bracket_of(field: Field<'_>) -> Result<(char, char, Option<char>), RowFault> {
    let wanted = RowFault::Line(field.line, Why::Brackets);
    let (opening, rest) = field.value.split_once(" ").ok_or(wanted)?;
    let opening = char_of(opening, field.line)?;
    match rest.split_once(" ") {
        Some((closing, normal)) => Ok((
            opening,
            char_of(closing, field.line)?,
            Some(char_of(normal, field.line)?),
        )),
        None => Ok((opening, char_of(rest, field.line)?, None)),
    }
}

impl Tables {
    /// Reads the fields `range` and `bracket` of a row.
    pub fn of_row(alloc: Global, row: &Row<'_>) -> Result<Tables, RowFault> {
        let mut tables = Tables {
            ranges: Vec::new(alloc),
            brackets: Vec::new(alloc),
        };
        for field in &row.fields {
            match field.key {
                "range" => tables.ranges.push(range_of(*field)?)?,
                "bracket" => tables.brackets.push(bracket_of(*field)?)?,
                _ => {}
            }
        }
        Ok(tables)
    }

    /// Returns the data source over the tables.
    pub fn source(&self, line: usize) -> Result<TableBidiData<'_>, RowFault> {
        match TableBidiData::new(self.ranges.as_slice(), self.brackets.as_slice()) {
            Ok(source) => Ok(source),
            Err(_) => Err(RowFault::Line(line, Why::Source)),
        }
    }
}
