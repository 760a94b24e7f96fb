//! The forms of a report.

/// How a note writes a displayed line, so that the screen of its reader does not reorder it once more.
#[derive(Clone, Copy, Debug, PartialEq)]
pub enum Notes {
    /// Between LEFT-TO-RIGHT OVERRIDE and POP DIRECTIONAL FORMATTING, for a terminal. One with bidirectional support keeps
    /// the order of what is between them, and one without keeps every order.
    Overridden,
    /// With an escape such as `<U+05D0>` for each right-to-left character, for a file, a pipe or a log.
    Escaped,
}

/// The form of a report.
#[derive(Clone, Copy, Debug, PartialEq)]
pub enum Form {
    /// Nothing is written.
    Quiet,
    /// A line of text for each finding, and one more if it is about how its line is displayed.
    Text {
        /// Whether the line of the file is shown below a finding.
        excerpts: bool,
        /// Whether the text is coloured by escape sequences for a terminal.
        colors: bool,
        /// How a note writes a displayed line.
        notes: Notes,
    },
    /// A line of JSON for each finding.
    Json,
    /// One document of SARIF 2.1.0.
    Sarif,
}

impl Form {
    ghost use Rattle.std.specs.Prelude.{◌≡◌};
    ghost use Rattle.bidi_reports.specs.Reports.{shows_lines};

    /// Returns whether a report in this form shows how lines are displayed.
    pub fn shows_lines(self) -> bool
        ensures { result ≡ shows_lines self }
    {
        !matches!(self, Form::Quiet)
    }
}
