//! What `check` finds.
use crate::control::Control;
use bidi_base::char_data::BidiClass;
use bidi_base::classes::{is_embedding_initiator, is_isolate_initiator};

/// The kind of a finding: what is wrong with a control or with a line.
#[derive(Clone, Copy, Debug)]
pub enum Trouble {
    /// Nothing on its line closes what the control opens.
    NotClosed,
    /// There is nothing on its line that the control closes.
    ClosesNothing,
    /// The control or mark is there. Nothing else is wrong with it.
    Present,
    /// Controls or marks make the line display differently from how it reads. The first of them is reported.
    DisplayedDifferently,
    /// The line displays differently from how it reads, with or without its controls and marks. The first character of
    /// class R, AL or AN is reported.
    LettersAlone,
}

impl Trouble {
    ghost use Rattle.std.specs.Prelude.{◌≡◌};
    ghost use Rattle.bidi_controls.specs.Findings.{trouble_of, trouble_text};

    /// Returns what is wrong with a control of this class, or `Present` if `unmatched` is false.
    pub fn of(unmatched: bool, class: BidiClass) -> Trouble
        ensures { result ≡ trouble_of unmatched class }
    {
        if !unmatched {
            Trouble::Present
        } else if is_isolate_initiator(class) || is_embedding_initiator(class) {
            Trouble::NotClosed
        } else {
            Trouble::ClosesNothing
        }
    }

    /// Returns what is found, as the words of a report. The name of the control comes before them, if there is one.
    pub fn text(self) -> &'static str
        ensures { result.now ≡ trouble_text self }
    {
        match self {
            Trouble::NotClosed => "is not closed on its line",
            Trouble::ClosesNothing => "closes nothing on its line",
            Trouble::Present => "is present",
            Trouble::DisplayedDifferently => "is on a line displayed differently from how it reads",
            Trouble::LettersAlone => {
                "letters alone make the line display differently from how it reads"
            }
        }
    }
}

/// Which kinds of findings are wanted: a flag for each kind.
#[derive(Clone, Copy, Debug, PartialEq)]
pub struct Wanted {
    /// Controls that nothing on their line closes.
    pub not_closed: bool,
    /// Controls that close nothing on their line.
    pub closes_nothing: bool,
    /// All other controls, and marks.
    pub present: bool,
    /// Lines that controls or marks make display differently from how they read.
    pub displayed_differently: bool,
    /// Lines that letters alone make display differently from how they read.
    pub letters_alone: bool,
}

impl Wanted {
    ghost use Rattle.std.specs.Prelude.{◌≡◌};
    ghost use Rattle.bidi_controls.specs.Findings.{wants, with_kind};

    /// No kind.
    pub const NOTHING: Wanted = Wanted {
        not_closed: false,
        closes_nothing: false,
        present: false,
        displayed_differently: false,
        letters_alone: false,
    };

    /// Controls without a match.
    pub const UNMATCHED: Wanted = Wanted {
        not_closed: true,
        closes_nothing: true,
        present: false,
        displayed_differently: false,
        letters_alone: false,
    };

    /// Controls without a match, and lines that controls or marks make display differently from how they read.
    pub const MISLEADING: Wanted = Wanted {
        not_closed: true,
        closes_nothing: true,
        present: false,
        displayed_differently: true,
        letters_alone: false,
    };

    /// Every control and mark.
    pub const EVERY_CONTROL: Wanted = Wanted {
        not_closed: true,
        closes_nothing: true,
        present: true,
        displayed_differently: false,
        letters_alone: false,
    };

    /// Every control and mark, and lines that they make display differently from how they read.
    pub const EVERYTHING: Wanted = Wanted {
        not_closed: true,
        closes_nothing: true,
        present: true,
        displayed_differently: true,
        letters_alone: false,
    };

    /// Returns whether findings of a kind are wanted.
    pub fn wants(self, kind: Trouble) -> bool
        ensures { result ≡ wants self kind }
    {
        match kind {
            Trouble::NotClosed => self.not_closed,
            Trouble::ClosesNothing => self.closes_nothing,
            Trouble::Present => self.present,
            Trouble::DisplayedDifferently => self.displayed_differently,
            Trouble::LettersAlone => self.letters_alone,
        }
    }

    /// Returns the same kinds, with one of them wanted or not.
    pub fn with(self, kind: Trouble, is_wanted: bool) -> Wanted
        ensures { result ≡ with_kind self kind is_wanted }
    {
        match kind {
            Trouble::NotClosed => Wanted {
                not_closed: is_wanted,
                ..self
            },
            Trouble::ClosesNothing => Wanted {
                closes_nothing: is_wanted,
                ..self
            },
            Trouble::Present => Wanted {
                present: is_wanted,
                ..self
            },
            Trouble::DisplayedDifferently => Wanted {
                displayed_differently: is_wanted,
                ..self
            },
            Trouble::LettersAlone => Wanted {
                letters_alone: is_wanted,
                ..self
            },
        }
    }
}

/// A character in a line of a file.
#[derive(Clone, Copy, Debug)]
pub struct LineChar {
    /// The number of its line, counted from 1.
    pub line: usize,
    /// Its index in the line, in characters.
    pub place: usize,
    /// Its class.
    pub class: BidiClass,
    /// The character itself.
    pub c: char,
}

/// A finding: its position and its kind.
#[derive(Clone, Copy, Debug)]
pub struct Finding {
    /// The number of its line, counted from 1.
    pub line: usize,
    /// Its column: the index of its character in the line, in characters, plus 1.
    pub column: usize,
    /// The control or the mark that is reported. `None` if letters alone make the line display differently.
    pub control: Option<Control>,
    /// What is wrong.
    pub trouble: Trouble,
}

impl Finding {
    ghost use Rattle.std.specs.Prelude.{◌≡◌, ◌+◌, ◌<◌, ◌^◌};
    ghost use Rattle.bidi_controls.specs.Findings.{paragraph_finding, finding_of};

    // Returns the finding of this kind at a character, with the control or the mark that it names.
    fn at(at: LineChar, trouble: Trouble, control: Option<Control>) -> Finding
        requires { at.place + 1 < 2 ^ 64 }
        ensures { result ≡ record { line = at.line; column = at.place + 1; control = control; trouble = trouble } }
    {
        Finding {
            line: at.line,
            column: at.place + 1,
            control,
            trouble,
        }
    }

    /// Returns the finding of a paragraph as a whole, of this kind, at a character. The column must be below 2^64.
    ///
    /// It names the control or the mark that is there, but not if letters alone are the cause: RLM and ALM are of the classes
    /// R and AL too.
    pub fn of_paragraph(trouble: Trouble, at: LineChar) -> Finding
        requires { at.place + 1 < 2 ^ 64 }
        ensures { result ≡ paragraph_finding trouble at.line at.place at.class at.c }
    {
        let control = match trouble {
            Trouble::LettersAlone => None,
            _ => Control::of(at.class, at.c),
        };
        Finding::at(at, trouble, control)
    }

    /// Returns what is found at a character: a control, without a match on its line or not, or a mark. Returns `None` for
    /// any other character. The column must be below 2^64.
    pub fn of(unmatched: bool, at: LineChar) -> Option<Finding>
        requires { at.place + 1 < 2 ^ 64 }
        ensures { result ≡ finding_of at.line at.place unmatched at.class at.c }
    {
        let control = Control::of(at.class, at.c);
        let finding = Finding::at(at, Trouble::of(unmatched, at.class), control);
        control.is_some().then_some(finding)
    }
}
