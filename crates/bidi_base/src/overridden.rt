//! A data source that gives some characters another class.

ghost use Rattle.std.specs.Prelude.{◌≡◌};

use crate::char_data::BidiClass;
use crate::data_source::{BidiDataSource, BidiMatchedOpeningBracket};

/// A data source that gives some characters another class than a data source that it borrows. It changes source
/// classes; a directional override (BD12) is a control in the text.
///
/// For example, a display of file names can give U+002F (`/`) the class L. Brackets keep their bracket data, but a
/// bracket of another class than ON is in no pair (BD14, BD15).
#[derive(Clone, Copy)]
pub struct Overridden<'a, D: BidiDataSource> {
    source: &'a D,
    classes: &'a [(char, BidiClass)],
}

impl<'a, D: BidiDataSource> Overridden<'a, D> {
    /// Returns the data source that has these classes for these characters, and those of `source` for all others.
    ///
    /// If a character is in the list twice, its first class counts. A lookup of a class reads the list in order, so the
    /// list should be short.
    pub fn new(source: &'a D, classes: &'a [(char, BidiClass)]) -> Overridden<'a, D>
        ensures source { result.source.now ≡ source.now }
        ensures classes { result.classes.now ≡ classes.now }
    {
        Overridden { source, classes }
    }
}

impl<D: BidiDataSource> BidiDataSource for Overridden<'_, D> {
    ghost use Rattle.bidi_base.specs.Source.{overridden_source};

    ghost source = { λ s. overridden_source (D.source s.source.now) s.classes.now };

    fn bidi_class(&self, c: char) -> BidiClass {
        match self.classes.iter().find(|entry| entry.0 == c) {
            Some((_, class)) => *class,
            None => self.source.bidi_class(c),
        }
    }

    fn bidi_matched_opening_bracket(&self, c: char) -> Option<BidiMatchedOpeningBracket> {
        self.source.bidi_matched_opening_bracket(c)
    }
}
