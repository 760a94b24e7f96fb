// The levels of the characters of a line after L1.

ghost use Rattle.std.specs.Prelude.{◌≡◌, IfOk};
ghost use Rattle.bidi_base.specs.AnalysedText.{IsLineOf, line_levels_per_char};
ghost use Rattle.bidi_lines.specs.Analysed.{analysed as analysed_of};
ghost use Rattle.bidi_lines.specs.LineLevels.{levels as kept_levels};

use bidi_base::level::Level;
use bidi_lines::analysed::Analysed;
use bidi_lines::reused_levels::LineLevels;
use bidi_text::text::{TextSource, is_line};
use std::alloc::{AllocError, Global};
use std::ops::Range;

// Finds the levels of a line's characters after L1. A line of up to 256 code units needs no allocation.
pub(crate) fn char_levels<T: TextSource>(
    alloc: Global,
    analysed: &Analysed<T>,
    para_level: Level,
    line: Range<usize>,
) -> Result<LineLevels, AllocError>
    requires { IsLineOf (analysed_of analysed.now) line }
    ensures { IfOk result (λ s. kept_levels s ≡ line_levels_per_char (analysed_of analysed.now) para_level line) }
{
    prove!(is_line(analysed.text(), &line));
    let (start, end) = (line.start, line.end);
    let classes = &analysed.original_classes()[start..end];
    let mut after_l1 = LineLevels::new(alloc);
    after_l1.show(para_level, classes, &analysed.levels()[start..end])?;
    after_l1.keep_first_units(analysed.text().subrange(line));
    Ok(after_l1)
}

// Returns the levels of a line's characters after L1.
pub(crate) fn levels_of_line_per_char<T: TextSource>(
    alloc: Global,
    analysed: &Analysed<T>,
    para_level: Level,
    line: Range<usize>,
) -> Result<Vec<Level>, AllocError>
    requires { IsLineOf (analysed_of analysed.now) line }
    ensures { IfOk result (λ v. v.items ≡ line_levels_per_char (analysed_of analysed.now) para_level line) }
{
    let after_l1 = char_levels(alloc, analysed, para_level, line)?;
    let mut levels = Vec::new(alloc);
    levels.extend_from_slice(after_l1.as_slice())?;
    Ok(levels)
}
