//! Displayed lines of analysed texts.

ghost use Rattle.std.specs.Prelude.{◌≡◌, OnOk, OnErr};
ghost use Rattle.bidi_base.specs.AnalysedText.{IsLineOf};
ghost use Rattle.bidi_display.specs.Shown.{options as options_of, Displays, IsEmptied};
ghost use Rattle.bidi_paragraphs.specs.ParagraphInfo.{level_of};
ghost use Rattle.unicode_bidi.specs.BidiInfo.{analysed as analysed_of};
ghost use Rattle.unicode_bidi.specs.ParagraphBidiInfo.{analysed as analysed_of_paragraph, paragraph_level};

use crate::displayed_line::DisplayedLine;
use crate::width::ClusterWidth;
use bidi_text::text::TextSource;
use std::alloc::AllocError;
use std::ops::Range;
use unicode_bidi::ParagraphInfo;
use unicode_bidi::info::{BidiInfo, ParagraphBidiInfo};

impl DisplayedLine {
    /// Shows a line of an analysed text.
    ///
    /// `line` is a range of code units that cuts no character (see `is_line`), and `para` is its paragraph. The widths,
    /// the cost and the result of a failed allocation are those of [`DisplayedLine::show`].
    pub fn show_line<T: TextSource, W: ClusterWidth>(
        &mut self,
        info: &BidiInfo<T>,
        para: &ParagraphInfo,
        line: Range<usize>,
        widths: &W,
    ) -> Result<(), AllocError>
        requires { IsLineOf (analysed_of info.now) line }
        ensures options { options_of self.new ≡ options_of self.old }
        ensures displays { OnOk result (Displays (W.width_of widths.now) (analysed_of info.now) (level_of para.now) line self.new) }
        ensures emptied { OnErr result (IsEmptied self.new) }
    {
        self.show(
            info.text_source(),
            info.original_classes(),
            info.levels(),
            para.level(),
            line,
            widths,
        )
    }

    /// Shows a line of an analysed text that is one paragraph.
    ///
    /// The line, the widths, the cost and the result of a failed allocation are those of [`DisplayedLine::show_line`].
    pub fn show_paragraph_line<T: TextSource, W: ClusterWidth>(
        &mut self,
        info: &ParagraphBidiInfo<T>,
        line: Range<usize>,
        widths: &W,
    ) -> Result<(), AllocError>
        requires { IsLineOf (analysed_of_paragraph info.now) line }
        ensures options { options_of self.new ≡ options_of self.old }
        ensures displays { OnOk result (Displays (W.width_of widths.now) (analysed_of_paragraph info.now) (paragraph_level info.now) line self.new) }
        ensures emptied { OnErr result (IsEmptied self.new) }
    {
        self.show(
            info.text_source(),
            info.original_classes(),
            info.levels(),
            info.paragraph_level(),
            line,
            widths,
        )
    }
}
