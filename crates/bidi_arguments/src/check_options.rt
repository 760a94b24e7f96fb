//! What the options of `check` ask for.
ghost use Rattle.std.specs.Prelude.{◌≡◌, map, string_bytes};
ghost use Rattle.std.specs.List.{list_any};
ghost use Rattle.bidi_arguments.specs.Checks.{is_input, is_input_list, searches_input, reads_input_twice, first_check, first_report, format_named, color_named, flag_named, setting_named, with_flag, with_setting, with_format, with_color, with_allow, with_write_allow, with_everything, with_list, with_wanted, except_kinds, only_kinds, notes_of, form_of};

use crate::kinds::with_kinds;
use crate::operands::STANDARD_INPUT_NAME;
use crate::refusal::{Refusal, Word};
use crate::search::Search;
use bidi_controls::finding::Wanted;
use bidi_reports::form::{Form, Notes};

/// How findings are written.
#[derive(Clone, Copy, Debug, PartialEq)]
pub enum Format {
    /// As lines of text.
    Text,
    /// As lines of JSON.
    Json,
    /// As a document of SARIF.
    Sarif,
}

impl Format {
    /// Returns the format that an argument names. Returns `None` for any other argument.
    pub fn parse(word: &str) -> Option<Format>
        ensures { result ≡ format_named word.now }
    {
        match word {
            "text" => Some(Format::Text),
            "json" => Some(Format::Json),
            "sarif" => Some(Format::Sarif),
            _ => None,
        }
    }
}

/// When a report in text has colours, and shows the line of each finding.
#[derive(Clone, Copy, Debug, PartialEq)]
pub enum Color {
    /// If standard output is a terminal.
    Auto,
    /// Always.
    Always,
    /// Never in colours. Lines are shown if standard output is a terminal.
    Never,
}

impl Color {
    /// Returns the value of `--color` that an argument names. Returns `None` for any other argument.
    pub fn parse(word: &str) -> Option<Color>
        ensures { result ≡ color_named word.now }
    {
        match word {
            "auto" => Some(Color::Auto),
            "always" => Some(Color::Always),
            "never" => Some(Color::Never),
            _ => None,
        }
    }
}

// Returns how a displayed line is written. `is_terminal` says whether standard output is a terminal.
fn notes_of(is_terminal: bool) -> Notes
    ensures { result ≡ notes_of is_terminal }
{
    if is_terminal {
        Notes::Overridden
    } else {
        Notes::Escaped
    }
}

/// How `check` reports, and which findings it does not.
#[derive(Drop)]
pub struct ReportOptions<'w> {
    /// Whether no finding is written.
    pub quiet: bool,
    /// How findings are written.
    pub format: Format,
    /// When a report in text has colours, and shows the line of each finding.
    pub color: Color,
    /// The file that lists the findings that are allowed.
    pub allow: Option<Word<'w>>,
    /// Whether an entry of that file that allows nothing counts as a finding.
    pub strict: bool,
    /// The file to which a list of all that is found is written, or `-` for standard output. No finding is reported then.
    pub write_allow: Option<Word<'w>>,
}

impl<'w> Default for ReportOptions<'w> {
    /// Lines of text, with colours if standard output is a terminal, and no list.
    fn default() -> ReportOptions<'w>
        ensures { result ≡ first_report }
    {
        ReportOptions {
            quiet: false,
            format: Format::Text,
            color: Color::Auto,
            allow: None,
            strict: false,
            write_allow: None,
        }
    }
}

impl ReportOptions<'_> {
    /// Returns the form of the report.
    ///
    /// `is_terminal` says whether standard output is a terminal, and `no_color` whether the environment asks for no
    /// colours.
    pub fn form(&self, is_terminal: bool, no_color: bool) -> Form
        ensures { result ≡ form_of self.now is_terminal no_color }
    {
        if self.quiet || self.write_allow.is_some() {
            return Form::Quiet;
        }
        let always = self.color == Color::Always;
        let never = self.color == Color::Never;
        match self.format {
            Format::Text => Form::Text {
                excerpts: always || is_terminal,
                colors: always || is_terminal && !no_color && !never,
                notes: notes_of(is_terminal),
            },
            Format::Json => Form::Json,
            Format::Sarif => Form::Sarif,
        }
    }
}

/// An option without a value.
#[derive(Clone, Copy, Debug, PartialEq)]
pub enum Flag {
    /// `--any`.
    Any,
    /// `--follow`.
    Follow,
    /// `--gate`.
    Gate,
    /// `--hidden`.
    Hidden,
    /// `--letters`.
    Letters,
    /// `--quiet`.
    Quiet,
    /// `--strict-allow`.
    StrictAllow,
    /// `--text`.
    Binary,
    /// `--unmatched`.
    OnlyUnmatched,
}

impl Flag {
    /// Returns the option that an argument is. Returns `None` for any other argument.
    #[tactic(auto, unfolding(crate::specs::Checks::flag_named))]
    pub fn parse(word: &str) -> Option<Flag>
        ensures { result ≡ flag_named word.now }
    {
        match word {
            "--any" => Some(Flag::Any),
            "--follow" => Some(Flag::Follow),
            "--gate" => Some(Flag::Gate),
            "--hidden" => Some(Flag::Hidden),
            "--letters" => Some(Flag::Letters),
            "--quiet" => Some(Flag::Quiet),
            "--strict-allow" => Some(Flag::StrictAllow),
            "--text" => Some(Flag::Binary),
            "--unmatched" => Some(Flag::OnlyUnmatched),
            _ => None,
        }
    }
}

/// An option with a value.
#[derive(Clone, Copy, Debug, PartialEq)]
pub enum Setting {
    /// `--allow LIST`.
    Allow,
    /// `--color auto|always|never`.
    ColorOf,
    /// `--except KIND,..`.
    Except,
    /// `--files-from LIST`.
    FilesFrom,
    /// `--format text|json|sarif`.
    FormatOf,
    /// `--only KIND,..`.
    Only,
    /// `--write-allow FILE`.
    WriteAllow,
}

impl Setting {
    /// Returns the option that an argument is. Returns `None` for any other argument.
    #[tactic(auto, unfolding(crate::specs::Checks::setting_named))]
    pub fn parse(word: &str) -> Option<Setting>
        ensures { result ≡ setting_named word.now }
    {
        match word {
            "--allow" => Some(Setting::Allow),
            "--color" => Some(Setting::ColorOf),
            "--except" => Some(Setting::Except),
            "--files-from" => Some(Setting::FilesFrom),
            "--format" => Some(Setting::FormatOf),
            "--only" => Some(Setting::Only),
            "--write-allow" => Some(Setting::WriteAllow),
            _ => None,
        }
    }
}

// Returns these kinds of findings with every control and mark, and lines that they make display differently.
fn with_everything(wanted: Wanted) -> Wanted
    ensures { result ≡ with_everything wanted }
{
    Wanted {
        letters_alone: wanted.letters_alone,
        ..Wanted::EVERYTHING
    }
}

// Returns whether a name means standard input.
fn is_input(name: &str) -> bool
    ensures { result ≡ is_input name.now }
{
    name == STANDARD_INPUT_NAME
}

// Returns whether there is a list and it is read from standard input.
fn is_input_list(list: &Option<Word<'_>>) -> bool
    ensures { result ≡ is_input_list list.now }
{
    match list {
        Some(name) => is_input(name.text()),
        None => false,
    }
}

// Returns whether one of the files is standard input.
fn has_input(files: &[String]) -> bool
    ensures { result ≡ list_any is_input (map string_bytes files.now) }
{
    for file in files {
        if is_input(file.as_str()) {
            return true;
        }
    }
    false
}

/// What `check` looks for, where, and how it reports.
#[derive(Drop)]
pub struct CheckOptions<'w> {
    /// Which findings are wanted.
    pub wanted: Wanted,
    /// Which files are searched.
    pub search: Search<'w>,
    /// How findings are reported.
    pub report: ReportOptions<'w>,
}

impl<'w> Default for CheckOptions<'w> {
    /// What `check` does without options.
    fn default() -> CheckOptions<'w>
        ensures { result ≡ first_check }
    {
        CheckOptions {
            wanted: Wanted::MISLEADING,
            search: Search::default(),
            report: ReportOptions::default(),
        }
    }
}

impl<'w> CheckOptions<'w> {
    // Returns whether standard input is searched, if the arguments name these files.
    fn searches_input(&self, files: &[String]) -> bool
        ensures { result ≡ searches_input self.now.search.list (map string_bytes files.now) }
    {
        if files.is_empty() {
            return self.search.list.is_none();
        }
        has_input(files)
    }

    /// Returns whether two of these read standard input: the allow-list, the list of files, and the search of these files.
    /// The second reader would find it empty.
    pub fn reads_input_twice(&self, files: &[String]) -> bool
        ensures { result ≡ reads_input_twice self.now (map string_bytes files.now) }
    {
        let allowed = is_input_list(&self.report.allow);
        let listed = is_input_list(&self.search.list);
        allowed && listed || (allowed || listed) && self.searches_input(files)
    }

    /// Returns the options with one more that has no value.
    #[tactic(auto, unfolding(crate::specs::Checks::with_flag))]
    pub fn with_flag(mut self, flag: Flag) -> CheckOptions<'w>
        ensures { result ≡ with_flag flag self.entry }
    {
        match flag {
            Flag::Any => self.wanted = with_everything(self.wanted),
            Flag::Follow => self.search.follow = true,
            // All that `--any`, `--text` and `--hidden` ask for, and more.
            Flag::Gate => {
                self.wanted = with_everything(self.wanted);
                self.search.hidden = true;
                self.search.text = true;
                self.search.gate = true;
            }
            Flag::Hidden => self.search.hidden = true,
            Flag::Letters => self.wanted.letters_alone = true,
            Flag::Quiet => self.report.quiet = true,
            Flag::StrictAllow => self.report.strict = true,
            Flag::Binary => self.search.text = true,
            Flag::OnlyUnmatched => self.wanted = Wanted::UNMATCHED,
        }
        self
    }

    // Returns the options with this format, which an argument names.
    fn with_format(self, value: &'w str) -> Result<CheckOptions<'w>, Refusal<'w>>
        ensures { result ≡ with_format value.now self.entry (format_named value.now) }
    {
        let CheckOptions {
            wanted,
            search,
            report,
        } = self;
        match Format::parse(value) {
            Some(format) => Ok(CheckOptions {
                wanted,
                search,
                report: ReportOptions { format, ..report },
            }),
            None => Err(Refusal::NotAFormat(Word::new(value))),
        }
    }

    // Returns the options with this value of `--color`, which an argument names.
    fn with_color(self, value: &'w str) -> Result<CheckOptions<'w>, Refusal<'w>>
        ensures { result ≡ with_color value.now self.entry (color_named value.now) }
    {
        let CheckOptions {
            wanted,
            search,
            report,
        } = self;
        match Color::parse(value) {
            Some(color) => Ok(CheckOptions {
                wanted,
                search,
                report: ReportOptions { color, ..report },
            }),
            None => Err(Refusal::NotAColor(Word::new(value))),
        }
    }

    // Returns the options with this list of what is allowed.
    fn with_allow(self, value: &'w str) -> CheckOptions<'w>
        ensures { result ≡ with_allow value.now self.entry }
    {
        let CheckOptions {
            wanted,
            search,
            report,
        } = self;
        let allow = Some(Word::new(value));
        CheckOptions {
            wanted,
            search,
            report: ReportOptions { allow, ..report },
        }
    }

    // Returns the options with this file for a list of all that is found.
    fn with_write_allow(self, value: &'w str) -> CheckOptions<'w>
        ensures { result ≡ with_write_allow value.now self.entry }
    {
        let CheckOptions {
            wanted,
            search,
            report,
        } = self;
        let write_allow = Some(Word::new(value));
        CheckOptions {
            wanted,
            search,
            report: ReportOptions {
                write_allow,
                ..report
            },
        }
    }

    // Returns the options with this list of files.
    fn with_list(self, value: &'w str) -> CheckOptions<'w>
        ensures { result ≡ with_list value.now self.entry }
    {
        let CheckOptions {
            wanted,
            search,
            report,
        } = self;
        let list = Some(Word::new(value));
        CheckOptions {
            wanted,
            search: Search { list, ..search },
            report,
        }
    }

    // Returns the options with these kinds of findings, which an argument names.
    fn with_wanted(
        mut self,
        value: &'w str,
        kinds: Option<Wanted>,
    ) -> Result<CheckOptions<'w>, Refusal<'w>>
        ensures { result ≡ with_wanted value.now self.entry kinds }
    {
        let Some(kinds) = kinds else {
            return Err(Refusal::NotKinds(Word::new(value)));
        };
        self.wanted = kinds;
        Ok(self)
    }

    // Returns the options with exactly the kinds of findings that an argument names.
    fn with_only(self, value: &'w str) -> Result<CheckOptions<'w>, Refusal<'w>>
        ensures { result ≡ with_wanted value.now self.entry (only_kinds value.now) }
    {
        self.with_wanted(value, with_kinds(Wanted::NOTHING, value, true))
    }

    // Returns the options without the kinds of findings that an argument names.
    fn with_except(self, value: &'w str) -> Result<CheckOptions<'w>, Refusal<'w>>
        ensures { result ≡ with_wanted value.now self.entry (except_kinds value.now self.entry.wanted) }
    {
        let kinds = with_kinds(self.wanted, value, false);
        self.with_wanted(value, kinds)
    }

    /// Returns the options with one more that has a value, or an error if it does not take this value.
    #[tactic(auto, unfolding(crate::specs::Checks::with_setting))]
    pub fn with_setting(
        self,
        setting: Setting,
        value: &'w str,
    ) -> Result<CheckOptions<'w>, Refusal<'w>>
        ensures { result ≡ with_setting setting value.now self.entry }
    {
        match setting {
            Setting::Allow => Ok(self.with_allow(value)),
            Setting::ColorOf => self.with_color(value),
            Setting::Except => self.with_except(value),
            Setting::FilesFrom => Ok(self.with_list(value)),
            Setting::FormatOf => self.with_format(value),
            Setting::Only => self.with_only(value),
            Setting::WriteAllow => Ok(self.with_write_allow(value)),
        }
    }
}
