//! The kinds of what an allow-list allows.
ghost use Rattle.std.specs.Prelude.{◌≡◌};
ghost use Rattle.bidi_reports.specs.Kinds.{kind_name, kind_named, trouble_in, is_finding, is_same_kind};

use crate::words::kind_of;
use bidi_controls::finding::Trouble;

/// A kind of what is reported.
#[derive(Clone, Copy, Debug)]
pub enum Kind {
    /// A finding.
    Finding(Trouble),
    /// A file that is not UTF-8.
    NotUtf8,
    /// A link whose target has a name that is not UTF-8, where that name is searched.
    Link,
}

impl Kind {
    /// Returns its name: for a finding that of its kind in a report.
    pub fn name(self) -> &'static str
        ensures { result.now ≡ kind_name self }
    {
        match self {
            Kind::Finding(trouble) => kind_of(trouble),
            Kind::NotUtf8 => "not-utf8",
            Kind::Link => "link",
        }
    }

    /// Returns the kind of this name. Returns `None` if there is none.
    pub fn parse(name: &[u8]) -> Option<Kind>
        ensures { result ≡ kind_named name.now }
    {
        if name == "not-closed".as_bytes() {
            Some(Kind::Finding(Trouble::NotClosed))
        } else if name == "closes-nothing".as_bytes() {
            Some(Kind::Finding(Trouble::ClosesNothing))
        } else if name == "present".as_bytes() {
            Some(Kind::Finding(Trouble::Present))
        } else if name == "displayed-differently".as_bytes() {
            Some(Kind::Finding(Trouble::DisplayedDifferently))
        } else if name == "letters-alone".as_bytes() {
            Some(Kind::Finding(Trouble::LettersAlone))
        } else if name == "not-utf8".as_bytes() {
            Some(Kind::NotUtf8)
        } else if name == "link".as_bytes() {
            Some(Kind::Link)
        } else {
            None
        }
    }

    /// Returns what is wrong, if this is the kind of a finding.
    pub fn trouble(self) -> Option<Trouble>
        ensures { result ≡ trouble_in self }
    {
        match self {
            Kind::Finding(trouble) => Some(trouble),
            Kind::NotUtf8 | Kind::Link => None,
        }
    }

    /// Returns whether findings are of this kind.
    pub fn is_finding(self) -> bool
        ensures { result ≡ is_finding self }
    {
        matches!(self, Kind::Finding(_))
    }

    /// Returns whether another kind is the same.
    pub fn is_same(self, other: Kind) -> bool
        ensures { result ≡ is_same_kind self other }
    {
        self.name() == other.name()
    }
}
