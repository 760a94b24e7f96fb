//! A data source that reads the caller's tables.
ghost use Rattle.std.specs.BTreeMap.{get};
ghost use Rattle.std.specs.Ordering.{nat_cmp};
ghost use Rattle.std.specs.Prelude.{◌≡◌, ◌==◌, ℕ, true, map, if◌then◌else◌, Some, IsTrue, IfOk, IfSome, OnOk};
ghost use Rattle.std.specs.List.{list_all};
ghost use Rattle.std.specs.Option.{ForSome};
ghost use Rattle.bidi_base.specs.Source.{table_source};
ghost use Rattle.bidi_base.specs.Table.{source_of};
ghost use Rattle.bidi_numbers.specs.Faults.{FaultsAs};
ghost use Rattle.bidi_numbers.specs.Tables.{has_scalars, has_brackets, has_class, range_of, bracket_of, rows_fault, order_fault, HasBrackets, HasBracketsOf};

use crate::fault::{Fault, check};
use crate::numbers::{CLASSES, class_of};
use crate::structs::{BracketPair, ClassRange};
use crate::texts::{char_of, is_scalar};
use bidi_base::char_data::BidiClass;
use bidi_base::data_source::{BidiDataSource, BidiMatchedOpeningBracket, TableBidiData};
use std::alloc::{AllocError, Global};
use std::collections::BTreeMap;

/// The maximum number of pairs that are searched one after another, as [`TableBidiData`] does.
const FEW_PAIRS: usize = 255;

// The bracket data of characters.
type BracketMap = BTreeMap<char, BidiMatchedOpeningBracket>;

/// The rows of a table of classes and a table of brackets, in the types of the library.
///
/// If there are more than 255 pairs, it also has the bracket data of each of their characters.
#[derive(Drop)]
pub struct Tables {
    ranges: Vec<(char, char, BidiClass)>,
    brackets: Vec<(char, char, Option<char>)>,
    by_char: Option<BracketMap>,
    ghost same: { ForSome by_char (λ map. HasBrackets brackets.items map) },
}

/// The caller's tables as a data source. A bracket takes a search by its character if there are many pairs.
#[derive(Clone, Copy)]
pub struct CallerTables<'s, 't> {
    table: &'s TableBidiData<'t>,
    by_char: Option<&'s BracketMap>,
    ghost same: { ForSome by_char (λ map. HasBracketsOf (source_of table.now) map.now) },
}

impl<'s, 't> BidiDataSource for CallerTables<'s, 't> {
    ghost source = { λ t. source_of t.table.now };

    fn bidi_class(&self, c: char) -> BidiClass {
        self.table.bidi_class(c)
    }

    fn bidi_matched_opening_bracket(&self, c: char) -> Option<BidiMatchedOpeningBracket> {
        match self.by_char {
            Some(map) => map.get(&c).copied(),
            None => self.table.bidi_matched_opening_bracket(c),
        }
    }
}

// Returns whether both ends of a range are scalar values.
fn has_scalars(range: &ClassRange) -> bool
    ensures { result ≡ has_scalars range.now }
{
    is_scalar(range.first) && is_scalar(range.last)
}

// Returns whether both brackets of a pair and its normal form are scalar values.
fn has_brackets(pair: &BracketPair) -> bool
    ensures { result ≡ has_brackets pair.now }
{
    is_scalar(pair.opening) && is_scalar(pair.closing) && is_scalar(pair.normal_form)
}

// Returns a range in the types of the library.
fn range_of(range: &ClassRange) -> (char, char, BidiClass)
    requires { IsTrue (has_scalars range.now) }
    ensures { result ≡ range_of range.now }
{
    (
        char_of(range.first),
        char_of(range.last),
        class_of(range.class),
    )
}

// Returns a pair in the types of the library.
fn bracket_of(pair: &BracketPair) -> (char, char, Option<char>)
    requires { IsTrue (has_brackets pair.now) }
    ensures { result ≡ bracket_of pair.now }
{
    let normal_form = char_of(pair.normal_form);
    (
        char_of(pair.opening),
        char_of(pair.closing),
        Some(normal_form),
    )
}

// Returns ranges in the types of the library.
fn ranges_of(alloc: Global, rows: &[ClassRange]) -> Result<Vec<(char, char, BidiClass)>, AllocError>
    requires { list_all has_scalars rows.now ≡ true }
    ensures { IfOk result (λ v. v.items ≡ map range_of rows.now) }
{
    let mut ranges = Vec::with_capacity(alloc, rows.len())?;
    for row in rows {
        ranges.push(range_of(row))?;
    }
    Ok(ranges)
}

// Returns pairs in the types of the library.
fn brackets_of(
    alloc: Global,
    rows: &[BracketPair],
) -> Result<Vec<(char, char, Option<char>)>, AllocError>
    requires { list_all has_brackets rows.now ≡ true }
    ensures { IfOk result (λ v. v.items ≡ map bracket_of rows.now) }
{
    let mut brackets = Vec::with_capacity(alloc, rows.len())?;
    for row in rows {
        brackets.push(bracket_of(row))?;
    }
    Ok(brackets)
}

// Gives a character its bracket data, in place of what it had.
fn put_bracket(
    map: &mut BracketMap,
    c: char,
    bracket: BidiMatchedOpeningBracket,
) -> Result<(), AllocError>
    ensures { OnOk result ((d : ℕ) → get nat_cmp map.new d ≡ (if d == c then Some bracket else get nat_cmp map.old d)) }
{
    match map.insert(c, bracket) {
        Ok(_) => Ok(()),
        Err(_) => Err(AllocError),
    }
}

// Returns the bracket data of the characters of all pairs. The first pair that has a character decides. If it has the
// character twice, that is an opening bracket.
fn brackets_by_char(
    alloc: Global,
    rows: &[(char, char, Option<char>)],
) -> Result<BracketMap, AllocError>
    ensures { IfOk result (λ map. HasBrackets rows.now map) }
{
    let mut map = BTreeMap::new(alloc);
    for done in 0..rows.len() {
        let (first, second, normal_form) = rows[rows.len() - 1 - done];
        let opening = normal_form.unwrap_or(first);
        put_bracket(
            &mut map,
            second,
            BidiMatchedOpeningBracket {
                opening,
                is_open: false,
            },
        )?;
        put_bracket(
            &mut map,
            first,
            BidiMatchedOpeningBracket {
                opening,
                is_open: true,
            },
        )?;
    }
    Ok(map)
}

// Returns the bracket data of the characters of all pairs, if there are many pairs.
fn searched_brackets(
    alloc: Global,
    rows: &[(char, char, Option<char>)],
) -> Result<Option<BracketMap>, AllocError>
    ensures { IfOk result (λ found. IfSome found (λ map. HasBrackets rows.now map)) }
{
    if rows.len() <= FEW_PAIRS {
        return Ok(None);
    }
    Ok(Some(brackets_by_char(alloc, rows)?))
}

// Returns whether all ends of all ranges are scalar values.
fn all_have_scalars(rows: &[ClassRange]) -> bool
    ensures { result ≡ list_all has_scalars rows.now }
{
    rows.iter().all(has_scalars)
}

// Returns whether all brackets and normal forms of all pairs are scalar values.
fn all_have_brackets(rows: &[BracketPair]) -> bool
    ensures { result ≡ list_all has_brackets rows.now }
{
    rows.iter().all(has_brackets)
}

// Returns whether the numbers of all ranges are those of classes.
fn all_have_classes(rows: &[ClassRange]) -> bool
    ensures { result ≡ list_all has_class rows.now }
{
    rows.iter().all(|row| row.class < CLASSES)
}

impl Tables {
    /// Checks and converts the rows of both tables.
    ///
    /// Returns `NotScalar` if the number of a character is not a scalar value, or else `BadClass` if a number is not
    /// that of a class. Does not check the order of the ranges: [`Tables::source`] does.
    pub fn new(
        alloc: Global,
        ranges: &[ClassRange],
        brackets: &[BracketPair],
    ) -> Result<Tables, Fault>
        ensures fault { FaultsAs result (rows_fault ranges.now brackets.now) }
        ensures ranges { IfOk result (λ t. t.ranges.items ≡ map range_of ranges.now) }
        ensures brackets { IfOk result (λ t. t.brackets.items ≡ map bracket_of brackets.now) }
    {
        check(all_have_scalars(ranges), Fault::NotScalar)?;
        check(all_have_brackets(brackets), Fault::NotScalar)?;
        check(all_have_classes(ranges), Fault::BadClass)?;
        let ranges = ranges_of(alloc, ranges)?;
        let brackets = brackets_of(alloc, brackets)?;
        let by_char = searched_brackets(alloc, brackets.as_slice())?;
        Ok(Tables {
            ranges,
            brackets,
            by_char,
        })
    }

    /// Returns the data source, or `BadRanges` if a range is reversed or the ranges do not ascend. Reads all ranges.
    pub fn source(&self) -> Result<TableBidiData<'_>, Fault>
        ensures fault { FaultsAs result (order_fault self.now.ranges.items) }
        ensures source { IfOk result (λ t. source_of t ≡ table_source self.now.ranges.items self.now.brackets.items) }
    {
        match TableBidiData::new(self.ranges.as_slice(), self.brackets.as_slice()) {
            Ok(source) => Ok(source),
            Err(_) => Err(Fault::BadRanges),
        }
    }

    /// Returns the data source that also searches the brackets. `table` is that of [`Tables::source`].
    pub fn searched<'s>(&'s self, table: &'s TableBidiData<'s>) -> CallerTables<'s, 's>
        requires { source_of table.now ≡ table_source self.now.ranges.items self.now.brackets.items }
        ensures { result.table.now ≡ table.now }
    {
        CallerTables {
            table,
            by_char: self.by_char.as_ref(),
        }
    }
}
