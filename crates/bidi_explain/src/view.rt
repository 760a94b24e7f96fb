//! How stages are reported.
use bidi_terminal::Base;

/// The form in which the stages of a text are written.
#[derive(Clone, Copy, Debug, PartialEq)]
pub enum Form {
    /// As tables of plain text.
    Table,
    /// As sections of a page of HTML.
    Page,
}

/// How the stages of the lines of a text are reported.
#[derive(Clone, Copy, Debug, PartialEq)]
pub struct StageView {
    /// The base level of each line.
    pub base: Base,
    /// The form that is written.
    pub form: Form,
    /// The width of the terminal in columns: a table is split into blocks that fit. Without it, a table is not split.
    pub width: Option<u16>,
}

impl Default for StageView {
    ghost use Rattle.std.specs.Prelude.{◌≡◌};
    ghost use Rattle.bidi_explain.specs.Explained.{first_stage_view};

    /// Tables that are not split. Each line gets its level from its characters.
    fn default() -> StageView
        ensures { result ≡ first_stage_view }
    {
        StageView {
            base: Base::Auto,
            form: Form::Table,
            width: None,
        }
    }
}
