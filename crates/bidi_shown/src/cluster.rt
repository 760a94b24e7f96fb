//! The grapheme clusters of a text, with the columns that they take in a terminal.
ghost use Rattle.std.specs.Prelude.{◌≡◌, ◌≤◌, ◌<◌, ◌+◌, ◌^◌, length, IfOk};
ghost use Rattle.std.specs.List.{list_all};
ghost use Rattle.std.specs.Str.{chars};
ghost use Rattle.bidi_shown.specs.Clusters.{columns as columns_of, width_of, is_space as is_space_class, cluster_at, clusters_of as clusters_in};

use bidi_base::char_data::BidiClass;
use bidi_base::data_source::BidiDataSource;
use std::alloc::{AllocError, Global};
use unicode_segmentation::UnicodeSegmentation;
use unicode_width::UnicodeWidthChar;

/// A grapheme cluster of a text.
#[derive(Clone, Copy, Debug, PartialEq, Drop)]
pub struct Cluster {
    /// The offset of its first byte.
    pub start: usize,
    /// The offset after its last byte.
    pub end: usize,
    /// The columns that it takes if it is no tab, or `u16::MAX` if it takes more.
    pub width: u16,
    /// Whether it is a tab.
    pub is_tab: bool,
    /// Whether it is white space: each character has class WS or S.
    pub is_space: bool,
}

/// Returns the number of columns that a character takes in a terminal, at most 3, or 0 if it has no width.
pub fn columns(c: char) -> usize
    ensures result { result ≡ columns_of c }
    ensures bound { result ≤ 3 }
{
    c.width().unwrap_or(0)
}

// Returns the number of columns that the characters of a text take together, at most 65535.
fn width(text: &str) -> u16
    ensures { result ≡ width_of (chars text.now) }
{
    let mut width = 0u16;
    for c in text.chars() {
        width = width.saturating_add(columns(c) as u16);
    }
    width
}

// Returns whether characters of a class are white space.
fn is_space(class: BidiClass) -> bool
    ensures { result ≡ is_space_class class }
{
    matches!(class, BidiClass::S | BidiClass::WS)
}

// Returns whether each character of a text is white space.
fn is_blank<D: BidiDataSource>(data_source: &D, text: &str) -> bool
    ensures { result ≡ list_all (λ c. is_space_class ((D.source data_source.now).class_of c)) (chars text.now) }
{
    text.chars().all(|c| is_space(data_source.bidi_class(c)))
}

impl Cluster {
    // Returns the cluster of these bytes, which begins at an offset.
    fn at<D: BidiDataSource>(data_source: &D, start: usize, text: &str) -> Cluster
        requires { start + length text.now < 2 ^ 64 }
        ensures { result ≡ cluster_at (D.source data_source.now) (start, text.now) }
    {
        Cluster {
            start,
            end: start + text.len(),
            width: width(text),
            is_tab: text == "\t",
            is_space: is_blank(data_source, text),
        }
    }
}

/// Returns the clusters of a text, in order. Returns an error if an allocation fails.
pub fn clusters<D: BidiDataSource>(
    alloc: Global,
    data_source: &D,
    text: &str,
) -> Result<Vec<Cluster>, AllocError>
    ensures { IfOk result (λ v. v.items ≡ clusters_in (D.source data_source.now) text.now) }
{
    let mut clusters = Vec::new(alloc);
    for (start, piece) in text.grapheme_indices(true) {
        clusters.push(Cluster::at(data_source, start, piece))?;
    }
    Ok(clusters)
}
