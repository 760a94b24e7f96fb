//! What the arguments of the program ask for.
ghost use Rattle.std.specs.Prelude.{◌≡◌, find, map, string_bytes};
ghost use Rattle.bidi_arguments.specs.Commands.{asks_help, unknown_option, late_option};
ghost use Rattle.bidi_arguments.specs.Options.{is_option};

use crate::check_options::{CheckOptions, Flag, Setting};
use crate::operands::Operands;
use crate::refusal::{Refusal, Subcommand, Word};
use crate::show_options::ShowSetting;
use bidi_explain::view::{Form, StageView};
use bidi_shown::view::View;
use bidi_terminal::{Base, parse_number};
use std::marker::Model;

/// Arguments that name files, or are texts. In clauses they are their bytes.
#[derive(Drop)]
pub struct FileWords<'w> {
    words: &'w [String],
}

impl<'w> Model for FileWords<'w> {
    ghost use Rattle.std.specs.Prelude.{ℕ, List, map, string_bytes};

    ghost Value = { List (List ℕ) };

    ghost view = { λ f. map string_bytes f.words.now };
}

/// Returns whether an argument looks like an option: it begins with a hyphen, and has more than that hyphen.
fn is_option(word: &str) -> bool
    ensures { result ≡ is_option word.now }
{
    word.as_bytes().starts_with(b"-") && word != "-"
}

/// Returns whether there is one argument after a subcommand and it asks for help.
fn asks_help(words: &[String]) -> bool
    ensures { result ≡ asks_help (map string_bytes words.now) }
{
    match words {
        [word] => Word::new(word.as_str()).is_help(),
        _ => false,
    }
}

/// Returns why an option is wrong among options: the subcommand does not have it, or it must be the only argument.
fn unknown_option<'w>(subcommand: Subcommand, word: &'w str) -> Refusal<'w>
    ensures { result ≡ unknown_option subcommand word.now }
{
    let word = Word::new(word);
    if word.is_help() {
        Refusal::NotAlone(Some(subcommand), word)
    } else {
        Refusal::NotAnOption(subcommand, word)
    }
}

/// Returns why an option after a file or a text is wrong.
fn late_option<'w>(subcommand: Subcommand, word: &'w str) -> Refusal<'w>
    ensures { result ≡ late_option subcommand word.now }
{
    let word = Word::new(word);
    if word.is_help() {
        Refusal::NotAlone(Some(subcommand), word)
    } else {
        Refusal::LateOption(subcommand, word)
    }
}

/// Returns the first argument that looks like an option.
fn first_option<'w>(words: &'w [String]) -> Option<Word<'w>>
    ensures { result ≡ find is_option (map string_bytes words.now) }
{
    for word in words {
        if is_option(word.as_str()) {
            return Some(Word::new(word.as_str()));
        }
    }
    None
}

impl<'w> FileWords<'w> {
    ghost use Rattle.bidi_arguments.specs.Commands.{file_words};

    /// Returns the arguments after the options of a subcommand. Returns an error if there is an option among them,
    /// unless `--` is the first of them.
    fn parse(subcommand: Subcommand, words: &'w [String]) -> Result<FileWords<'w>, Refusal<'w>>
        ensures { result ≡ file_words subcommand (map string_bytes words.now) }
    {
        match words {
            [] => Ok(FileWords { words }),
            [word, rest @ ..] if word.as_str() == "--" => Ok(FileWords { words: rest }),
            [word, ..] if is_option(word.as_str()) => {
                Err(unknown_option(subcommand, word.as_str()))
            }
            [_, rest @ ..] => match first_option(rest) {
                Some(late) => Err(late_option(subcommand, late.text())),
                None => Ok(FileWords { words }),
            },
        }
    }

    /// Returns the arguments, in order.
    pub fn words(&self) -> &'w [String]
        ensures { map string_bytes result.now ≡ self.now }
    {
        self.words
    }
}

/// What the program is asked to do.
#[derive(Drop)]
pub enum Command<'w> {
    /// `check [OPTION..] [FILE..]`: reports direction controls without a match on their line, or all controls, and
    /// lines that are displayed differently from how they read.
    Check {
        options: CheckOptions<'w>,
        files: FileWords<'w>,
    },
    /// `explain [--base auto|ltr|rtl] [--html] [--width N] [--files | --line] [TEXT..]`: writes the result of each stage of the
    /// rules.
    Explain {
        view: StageView,
        operands: Operands,
        words: FileWords<'w>,
    },
    /// `--help`, by itself or after a subcommand: writes which arguments there are.
    Help(Option<Subcommand>),
    /// `show [OPTION..] [FILE..]`: writes the lines from left to right.
    Show {
        view: View,
        files: FileWords<'w>,
    },
    /// `--version`: writes the versions of the program and of Unicode's data.
    Version,
}

impl<'w> Command<'w> {
    ghost use Rattle.bidi_arguments.specs.Commands.{command_of, check_of, check_over, explain_of, over_files, show_of, alone_of, file_words};
    ghost use Rattle.bidi_arguments.specs.declared.command.Command.TheVariants.{Show as ShowFiles};
    ghost use Rattle.bidi_arguments.specs.declared.refusal.Subcommand.TheVariants.{Checking, Showing};

    /// Returns what arguments after the options of `check` ask for, or an error if standard input would be read twice.
    fn over_files(
        options: CheckOptions<'w>,
        words: &'w [String],
    ) -> Result<Command<'w>, Refusal<'w>>
        ensures { result ≡ check_over options.entry (file_words Checking (map string_bytes words.now)) }
    {
        match FileWords::parse(Subcommand::Checking, words) {
            Ok(files) if options.reads_input_twice(files.words()) => Err(Refusal::InputTwice),
            Ok(files) => Ok(Command::Check { options, files }),
            Err(refusal) => Err(refusal),
        }
    }

    /// Returns what arguments after `check` ask for, if the options before them ask for `options`.
    fn parse_check(
        options: CheckOptions<'w>,
        words: &'w [String],
    ) -> Result<Command<'w>, Refusal<'w>>
        ensures { result ≡ check_of options.entry (map string_bytes words.now) }
    {
        let [first, rest @ ..] = words else {
            return Command::over_files(options, words);
        };
        if let Some(flag) = Flag::parse(first.as_str()) {
            return Command::parse_check(options.with_flag(flag), rest);
        }
        let Some(setting) = Setting::parse(first.as_str()) else {
            return Command::over_files(options, words);
        };
        let [value, rest @ ..] = rest else {
            return Err(Refusal::NoValue(Subcommand::Checking, Word::new(first.as_str())));
        };
        match options.with_setting(setting, value.as_str()) {
            Ok(options) => Command::parse_check(options, rest),
            Err(refusal) => Err(refusal),
        }
    }

    /// Returns what arguments after the options of `show` ask for, if the options ask for this view.
    fn show_files(view: View, words: &'w [String]) -> Result<Command<'w>, Refusal<'w>>
        ensures { result ≡ over_files (ShowFiles view) (file_words Showing (map string_bytes words.now)) }
    {
        match FileWords::parse(Subcommand::Showing, words) {
            Ok(files) => Ok(Command::Show { view, files }),
            Err(refusal) => Err(refusal),
        }
    }

    /// Returns what arguments after `show` ask for, if the options before them ask for this view.
    fn parse_show(view: View, words: &'w [String]) -> Result<Command<'w>, Refusal<'w>>
        ensures { result ≡ show_of view (map string_bytes words.now) }
    {
        let [first, rest @ ..] = words else {
            return Command::show_files(view, words);
        };
        if first.as_str() == "--plain" {
            let view = View {
                plain: true,
                ..view
            };
            return Command::parse_show(view, rest);
        }
        let Some(setting) = ShowSetting::parse(first.as_str()) else {
            return Command::show_files(view, words);
        };
        let [value, rest @ ..] = rest else {
            return Err(Refusal::NoValue(Subcommand::Showing, Word::new(first.as_str())));
        };
        match setting.apply(view, value.as_str()) {
            Ok(view) => Command::parse_show(view, rest),
            Err(refusal) => Err(refusal),
        }
    }

    /// Returns what arguments after `explain` ask for, if the options before them ask for this view and these operands.
    fn parse_explain(
        view: StageView,
        operands: Operands,
        words: &'w [String],
    ) -> Result<Command<'w>, Refusal<'w>>
        ensures { result ≡ explain_of view operands (map string_bytes words.now) }
    {
        match words {
            [option, rest @ ..] if option.as_str() == "--html" => {
                let view = StageView {
                    form: Form::Page,
                    ..view
                };
                Command::parse_explain(view, operands, rest)
            }
            [option, rest @ ..] if option.as_str() == "--files" => {
                Command::parse_explain(view, Operands::Files, rest)
            }
            [option, rest @ ..] if option.as_str() == "--line" => {
                Command::parse_explain(view, Operands::Lines, rest)
            }
            [option, value, rest @ ..] if option.as_str() == "--base" => {
                match Base::parse(value.as_str()) {
                    Some(base) => {
                        Command::parse_explain(StageView { base, ..view }, operands, rest)
                    }
                    None => Err(Refusal::NotABase(
                        Subcommand::Explaining,
                        Word::new(value.as_str()),
                    )),
                }
            }
            [option, value, rest @ ..] if option.as_str() == "--width" => {
                match parse_number(value.as_str()) {
                    Some(width) => {
                        let width = Some(width);
                        Command::parse_explain(StageView { width, ..view }, operands, rest)
                    }
                    None => Err(Refusal::NotAWidth(
                        Subcommand::Explaining,
                        Word::new(value.as_str()),
                    )),
                }
            }
            [option] if option.as_str() == "--base" || option.as_str() == "--width" => Err(
                Refusal::NoValue(Subcommand::Explaining, Word::new(option.as_str())),
            ),
            _ => match FileWords::parse(Subcommand::Explaining, words) {
                Ok(words) => Ok(Command::Explain {
                    view,
                    operands,
                    words,
                }),
                Err(refusal) => Err(refusal),
            },
        }
    }

    /// Returns what `--help` or `--version` asks for, which must be the only argument. Any other argument is not a
    /// subcommand.
    fn parse_alone(name: &'w str, rest: &'w [String]) -> Result<Command<'w>, Refusal<'w>>
        ensures { result ≡ alone_of name.now (map string_bytes rest.now) }
    {
        let name = Word::new(name);
        if !name.is_help() && !name.is_version() {
            return Err(Refusal::NotASubcommand(name));
        }
        if !rest.is_empty() {
            return Err(Refusal::NotAlone(None, name));
        }
        if name.is_help() {
            return Ok(Command::Help(None));
        }
        Ok(Command::Version)
    }

    /// Returns what the arguments ask for, or which of them is wrong and why. Does not allocate.
    ///
    /// Options come before the files, in any order, and `--` ends them. If an option is repeated, the last one counts.
    /// `--help` must be the only argument, or the only one after the subcommand. `--version` must be the only argument.
    pub fn parse(words: &'w [String]) -> Result<Command<'w>, Refusal<'w>>
        ensures { result ≡ command_of (map string_bytes words.now) }
    {
        match words {
            [] => Err(Refusal::NoSubcommand),
            [name, rest @ ..] if name.as_str() == "check" => {
                if asks_help(rest) {
                    return Ok(Command::Help(Some(Subcommand::Checking)));
                }
                Command::parse_check(CheckOptions::default(), rest)
            }
            [name, rest @ ..] if name.as_str() == "show" => {
                if asks_help(rest) {
                    return Ok(Command::Help(Some(Subcommand::Showing)));
                }
                Command::parse_show(View::default(), rest)
            }
            [name, rest @ ..] if name.as_str() == "explain" => {
                if asks_help(rest) {
                    return Ok(Command::Help(Some(Subcommand::Explaining)));
                }
                Command::parse_explain(StageView::default(), Operands::Texts, rest)
            }
            [name, rest @ ..] => Command::parse_alone(name.as_str(), rest),
        }
    }
}
