//! What the arguments after options mean.

/// What the arguments after the options of `explain` mean.
#[derive(Clone, Copy, Debug, PartialEq)]
pub enum Operands {
    /// Texts.
    Texts,
    /// Names of files.
    Files,
    /// Lines of files, each as `FILE:LINE` or `FILE:LINE:COLUMN`.
    Lines,
}

/// The name of a file that means standard input.
pub const STANDARD_INPUT_NAME: &str = "-";
