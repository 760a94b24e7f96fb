//! Rows of sources: the tables of classes and brackets that other rows name.

use bidi_base::char_data::BidiClass;
use bidi_base::data_source::{BidiDataSource, TableBidiData, TableError};
use bidi_base::sample;
use bidi_vectors_format::answer::class_words;
use bidi_vectors_format::fault::{RowFault, Why};
use bidi_vectors_format::row::Row;
use bidi_vectors_format::source::Tables;
use bidi_vectors_format::tally::Tally;
use std::alloc::Global;

/// The sources read so far, and their names.
#[derive(Drop)]
pub struct Sources {
    sources: Vec<(String, Tables)>,
    none: Tables,
}

// Returns a fault in ranges as text.
fn error_words(alloc: Global, error: TableError) -> Result<String, RowFault> {
    let words = match error {
        TableError::Reversed(index) => format!(in alloc; "reversed {index}")?,
        TableError::NotAscending(index) => format!(in alloc; "not-ascending {index}")?,
    };
    Ok(words)
}

// Returns whether a character is in a range of a table.
fn is_in_a_range(ranges: &[(char, char, BidiClass)], c: char) -> bool {
    for (first, last, _) in ranges {
        if *first <= c && c <= *last {
            return true;
        }
    }
    false
}

// Compares the classes of the first and the last character of each range, and of their neighbours, with the ranges.
fn check_ranges(
    alloc: Global,
    tables: &Tables,
    source: &TableBidiData<'_>,
    row: &Row<'_>,
    tally: &mut Tally,
) {
    for (first, last, class) in &tables.ranges {
        let wanted = class_words(alloc, &[*class, *class]);
        let classes = [source.bidi_class(*first), source.bidi_class(*last)];
        let came = class_words(alloc, &classes);
        tally.same(row, "TableBidiData::bidi_class", wanted, came);
        let before = u32::from(*first).wrapping_sub(1);
        check_neighbour(alloc, tables, source, before, row, tally);
        let behind = u32::from(*last).wrapping_add(1);
        check_neighbour(alloc, tables, source, behind, row, tally);
    }
}

// Tests that a neighbour of a range has class L, if it is a character and in no range.
fn check_neighbour(
    alloc: Global,
    tables: &Tables,
    source: &TableBidiData<'_>,
    neighbour: u32,
    row: &Row<'_>,
    tally: &mut Tally,
) {
    if let Some(c) = char::from_u32(neighbour)
        && !is_in_a_range(tables.ranges.as_slice(), c)
    {
        let (wanted, came) = ([BidiClass::L], [source.bidi_class(c)]);
        let wanted = class_words(alloc, &wanted);
        let came = class_words(alloc, &came);
        tally.same(row, "TableBidiData::bidi_class", wanted, came);
    }
}

impl Sources {
    /// Returns no sources.
    pub fn new(alloc: Global) -> Sources {
        Sources {
            sources: Vec::new(alloc),
            none: Tables {
                ranges: Vec::new(alloc),
                brackets: Vec::new(alloc),
            },
        }
    }

    // Returns the tables with this name.
    fn named(&self, name: &str, line: usize) -> Result<&Tables, RowFault> {
        for (known, tables) in &self.sources {
            if known.as_str() == name {
                return Ok(tables);
            }
        }
        Err(RowFault::Line(line, Why::SourceName))
    }

    /// Returns the tables that a row names, or else the sample's, or empty ones before the sample's are read.
    pub fn of_row(&self, row: &Row<'_>) -> Result<&Tables, RowFault> {
        match row.get("source") {
            Some(field) => self.named(field.value, field.line),
            None => Ok(self.named("sample", row.line).unwrap_or(&self.none)),
        }
    }

    // Adds the source of a row, for the rows after it.
    fn add(&mut self, alloc: Global, row: &Row<'_>, tally: &mut Tally) -> Result<(), RowFault> {
        row.has_only_or_many(&["fault"], &["range", "bracket"])?;
        let tables = Tables::of_row(alloc, row)?;
        match TableBidiData::new(tables.ranges.as_slice(), tables.brackets.as_slice()) {
            Ok(source) => {
                tally.agree_word(row, "fault", "TableBidiData::new", "none");
                check_ranges(alloc, &tables, &source, row, tally);
            }
            Err(error) => {
                tally.agree(
                    row,
                    "fault",
                    "TableBidiData::new",
                    error_words(alloc, error),
                );
                return Ok(());
            }
        }
        let name = String::from_str(alloc, row.name)?;
        self.sources.push((name, tables))?;
        Ok(())
    }

    // Compares the library's sample table with the source of this row.
    fn check_sample(&self, row: &Row<'_>, tally: &mut Tally) -> Result<(), RowFault> {
        row.has_only(&["source"])?;
        let tables = self.of_row(row)?;
        let same_ranges = tables.ranges.as_slice() == sample::RANGES.as_slice();
        let same_brackets = tables.brackets.as_slice() == sample::BRACKETS.as_slice();
        let came = if same_ranges && same_brackets {
            "same"
        } else {
            "another"
        };
        tally.same_word(row, "sample", "same", came);
        Ok(())
    }

    /// Runs a row of a source. Returns whether the row is one.
    pub fn run(
        &mut self,
        alloc: Global,
        row: &Row<'_>,
        tally: &mut Tally,
    ) -> Result<bool, RowFault> {
        match row.kind {
            "source" => self.add(alloc, row, tally)?,
            "sample" => self.check_sample(row, tally)?,
            _ => return Ok(false),
        }
        Ok(true)
    }
}
