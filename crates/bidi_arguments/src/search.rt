//! Which files `check` searches.
use crate::refusal::Word;

/// Which files `check` searches besides those of its arguments, and how.
#[derive(Drop)]
pub struct Search<'w> {
    /// Whether files and directories whose names begin with `.` are searched below a directory.
    pub hidden: bool,
    /// Whether binary files are searched.
    pub text: bool,
    /// Whether no link that an argument, a list or a directory names is followed, unless `follow` is true, and every other
    /// name that is no file or directory is reported.
    pub gate: bool,
    /// Whether each link that an argument, a list or a directory names is followed.
    pub follow: bool,
    /// The file that lists further names, or `-` for standard input.
    pub list: Option<Word<'w>>,
}

impl<'w> Default for Search<'w> {
    ghost use Rattle.std.specs.Prelude.{◌≡◌};
    ghost use Rattle.bidi_arguments.specs.Checks.{first_search};

    /// Neither hidden nor binary files, not as a gate, no link but one that an argument names, and no list.
    fn default() -> Search<'w>
        ensures { result ≡ first_search }
    {
        Search {
            hidden: false,
            text: false,
            gate: false,
            follow: false,
            list: None,
        }
    }
}
