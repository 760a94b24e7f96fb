//! Why the arguments are wrong.
use std::fmt;
use std::marker::Model;

/// A subcommand: the first argument names it.
#[derive(Clone, Copy, Debug, PartialEq)]
pub enum Subcommand {
    /// `check`: direction controls.
    Checking,
    /// `show`: lines from left to right.
    Showing,
    /// `explain`: the stages of the rules.
    Explaining,
}

impl fmt::Display for Subcommand {
    fn fmt<W: fmt::Write>(&self, f: &mut fmt::Formatter<W>) -> fmt::Result {
        f.write_str(match self {
            Subcommand::Checking => "check",
            Subcommand::Showing => "show",
            Subcommand::Explaining => "explain",
        })
    }
}

/// An option of `show` whose value is one of a few words.
#[derive(Clone, Copy, Debug, PartialEq)]
pub enum Choice {
    /// `--ambiguous`: the columns of ambiguous characters.
    Ambiguous,
    /// `--controls`: whether direction controls are written.
    Controls,
    /// `--mirror`: whether characters are mirrored.
    Mirror,
    /// `--moves`: what is moved as a whole.
    Moves,
    /// `--widths`: how the columns of a cluster are counted.
    Widths,
}

// The option and the words that it takes, as a report writes them.
impl fmt::Display for Choice {
    fn fmt<W: fmt::Write>(&self, f: &mut fmt::Formatter<W>) -> fmt::Result {
        f.write_str(match self {
            Choice::Ambiguous => "--ambiguous takes narrow or wide",
            Choice::Controls => "--controls takes drop or keep",
            Choice::Mirror => "--mirror takes yes or no",
            Choice::Moves => "--moves takes clusters, marks or characters",
            Choice::Widths => "--widths takes clusters or characters",
        })
    }
}

/// An argument, unchanged. In clauses it is its bytes.
#[derive(Drop)]
pub struct Word<'w> {
    text: &'w str,
}

impl<'w> Model for Word<'w> {
    ghost use Rattle.std.specs.Prelude.{ℕ, List};

    ghost Value = { List ℕ };

    ghost view = { λ word. word.text.now };
}

impl<'w> Word<'w> {
    ghost use Rattle.std.specs.Prelude.{◌≡◌};
    ghost use Rattle.bidi_arguments.specs.Options.{is_help, is_version};

    /// Returns a text as an argument.
    pub fn new(text: &'w str) -> Word<'w>
        ensures { result ≡ text.now }
    {
        Word { text }
    }

    /// Returns its text.
    pub fn text(&self) -> &'w str
        ensures { result.now ≡ self.now }
    {
        self.text
    }

    /// Returns whether it asks for help: `--help` or `-h`.
    pub fn is_help(&self) -> bool
        ensures { result ≡ is_help self.now }
    {
        self.text == "--help" || self.text == "-h"
    }

    /// Returns whether it asks for the version: `--version` or `-V`.
    pub fn is_version(&self) -> bool
        ensures { result ≡ is_version self.now }
    {
        self.text == "--version" || self.text == "-V"
    }
}

/// Which argument is wrong, and why.
#[derive(Drop)]
pub enum Refusal<'w> {
    /// There is no argument.
    NoSubcommand,
    /// The first argument is not a subcommand.
    NotASubcommand(Word<'w>),
    /// The subcommand has no such option.
    NotAnOption(Subcommand, Word<'w>),
    /// The option comes after a file or a text.
    LateOption(Subcommand, Word<'w>),
    /// `--help` or `--version` is not the only argument after the program or the subcommand.
    NotAlone(Option<Subcommand>, Word<'w>),
    /// The option needs a value, and no argument is left.
    NoValue(Subcommand, Word<'w>),
    /// The value of `--base` is none of `auto`, `ltr` and `rtl`.
    NotABase(Subcommand, Word<'w>),
    /// The value of `--width` is not a number of one to three digits.
    NotAWidth(Subcommand, Word<'w>),
    /// The option of `show` does not take this value.
    NotAChoice(Choice, Word<'w>),
    /// The value of `--format` is none of `text`, `json` and `sarif`.
    NotAFormat(Word<'w>),
    /// The value of `--color` is none of `auto`, `always` and `never`.
    NotAColor(Word<'w>),
    /// The value of `--only` or `--except` is not a list of kinds of findings.
    NotKinds(Word<'w>),
    /// Two of `--allow`, `--files-from` and the search read standard input.
    InputTwice,
}

impl<'w> fmt::Display for Refusal<'w> {
    fn fmt<W: fmt::Write>(&self, f: &mut fmt::Formatter<W>) -> fmt::Result {
        match self {
            Refusal::NoSubcommand => f.write_str("no command; see bidi --help"),
            Refusal::NotASubcommand(word) => {
                write!(f, "no command {}; see bidi --help", word.text)
            }
            Refusal::NotAnOption(subcommand, word) => write!(
                f,
                "{subcommand}: no option {}; see bidi {subcommand} --help, or put -- before a file or text \
                 that begins with -",
                word.text
            ),
            Refusal::LateOption(subcommand, word) => write!(
                f,
                "{subcommand}: option {} comes after a file or text; put options first, or -- before a \
                 file or text that begins with -",
                word.text
            ),
            Refusal::NotAlone(None, word) => {
                write!(f, "{} must be the only argument", word.text)
            }
            Refusal::NotAlone(Some(subcommand), word) => write!(
                f,
                "{subcommand}: {} must be the only argument; put -- before a file or text of that name",
                word.text
            ),
            Refusal::NoValue(subcommand, word) => write!(
                f,
                "{subcommand}: no value after {}; see bidi {subcommand} --help",
                word.text
            ),
            Refusal::NotABase(subcommand, word) => write!(
                f,
                "{subcommand}: --base takes auto, ltr or rtl, not {}; see bidi {subcommand} --help",
                word.text
            ),
            Refusal::NotAWidth(subcommand, word) => write!(
                f,
                "{subcommand}: --width takes a number of one to three digits, not {}; see bidi {subcommand} --help",
                word.text
            ),
            Refusal::NotAChoice(choice, word) => write!(
                f,
                "show: {choice}, not {}; see bidi show --help",
                word.text
            ),
            Refusal::NotAFormat(word) => write!(
                f,
                "check: --format takes text, json or sarif, not {}; see bidi check --help",
                word.text
            ),
            Refusal::NotAColor(word) => write!(
                f,
                "check: --color takes auto, always or never, not {}; see bidi check --help",
                word.text
            ),
            Refusal::NotKinds(word) => write!(
                f,
                "check: --only and --except take kinds separated by commas: closes-nothing, displayed-differently, \
                 letters-alone, not-closed, present; not {}; see bidi check --help",
                word.text
            ),
            Refusal::InputTwice => f.write_str(
                "check: standard input can be read once, but two of --allow, --files-from and the files are it; save one of \
                 them to a file and name that",
            ),
        }
    }
}
