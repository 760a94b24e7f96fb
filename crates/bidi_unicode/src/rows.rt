//! Search in a sorted table.
ghost use Rattle.std.specs.Prelude.{◌≡◌, true, IfSome, IfNone, None};
ghost use Rattle.bidi_unicode.specs.Rows.{row_value, rows_rise, IsRowOf};

/// Returns the index of a character's row, or `None` if it has none. The rows must ascend. Uses a binary search.
pub(crate) fn index_of<T>(rows: &[(char, T)], c: char) -> Option<usize>
    requires { rows_rise 0 rows.now ≡ true }
    ensures found { IfSome result (IsRowOf rows.now c) }
    ensures absent { IfNone result (row_value rows.now c ≡ None) }
{
    rows.binary_search_by_key(&c, |row| row.0).ok()
}
