//! Whole texts as they are displayed: one text after another, in memory that is kept.

ghost use Rattle.std.specs.Prelude.{◌≡◌, ◌++◌, [], flat_map, encode_utf8, string_bytes, vec_len, Some, OnOk, OnErr};
ghost use Rattle.bidi_base.specs.Texts.{AreLines, HaveClass, HaveLevel, IsLine};
ghost use Rattle.bidi_lines.specs.Analysed.{with_lists};
ghost use Rattle.bidi_paragraphs.specs.ParagraphInfo.{ranges_of, levels_of as paragraph_levels_of};
ghost use Rattle.unicode_bidi.specs.Base.{CutsNoChar, HasLowLevel, IsAnalysisWith};
ghost use Rattle.bidi_display.specs.Extends.{Extends};
ghost use Rattle.bidi_display.specs.Shown.{options as options_of, Displays, IsEmptied};
ghost use Rattle.bidi_display.specs.TextDisplay.{displayed_paragraph, displayed_paragraphs};

use crate::displayed_line::DisplayedLine;
use crate::options::DisplayOptions;
use crate::text::MirroredCharacters;
use crate::width::{ClusterWidth, NoWidth};
use bidi_base::char_data::BidiClass;
use bidi_base::data_source::BidiDataSource;
use bidi_base::level::{LTR_LEVEL, Level};
use bidi_base::split_rule::SplitRule;
use bidi_text::text::TextSource;
use std::alloc::{AllocError, Global};
use std::ops::Range;
use unicode_bidi::content::content_len;
use unicode_bidi::engine::Analyser;
use unicode_bidi::{Base, ParagraphInfo};

// Gives both lists this many entries. If an allocation fails, they may have any number.
fn resize_lists(
    classes: &mut Vec<BidiClass>,
    levels: &mut Vec<Level>,
    len: usize,
) -> Result<(), AllocError>
    ensures classes { OnOk result (vec_len classes.new ≡ len) }
    ensures levels { OnOk result (vec_len levels.new ≡ len) }
{
    classes.resize(len, BidiClass::L)?;
    levels.resize(len, LTR_LEVEL)
}

// Appends the characters of a text in its order. If an allocation fails, `out` may have some of them.
fn push_chars<T: TextSource>(text: T, out: &mut String) -> Result<(), AllocError>
    ensures text { OnOk result (string_bytes out.new ≡ string_bytes out.old ++ flat_map encode_utf8 (T.text text).chars) }
    ensures extends { Extends (string_bytes out.old) (string_bytes out.new) }
{
    for c in text.chars() {
        out.push(c)?;
    }
    Ok(())
}

// Appends the displayed text of a paragraph: its content, and its separators. Shows the content in `line`. If an
// allocation fails, `out` may have some of the characters.
fn push_paragraph<T: TextSource, M: MirroredCharacters>(
    line: &mut DisplayedLine,
    text: T,
    classes: &[BidiClass],
    levels: &[Level],
    paragraph: &ParagraphInfo,
    mirrors: &M,
    out: &mut String,
) -> Result<(), AllocError>
    requires classes { HaveClass (T.text text) classes.now }
    requires levels { HaveLevel (T.text text) levels.now }
    requires is_line { CutsNoChar (T.text text) paragraph.now }
    ensures options { options_of line.new ≡ options_of line.old }
    ensures text { OnOk result (string_bytes out.new ≡ string_bytes out.old ++ flat_map encode_utf8
        (displayed_paragraph (options_of line.old) (M.mirrored_of mirrors.now)
        (with_lists (T.text text) classes.now levels.now) paragraph.now)) }
    ensures extends { Extends (string_bytes out.old) (string_bytes out.new) }
{
    let range = paragraph.range();
    let (start, end) = (range.start, range.end);
    let content_end = start + content_len(&classes[start..end]);
    let content = start..content_end;
    line.show(text, classes, levels, paragraph.level(), content, &NoWidth)?;
    line.push_text(mirrors, out)?;
    push_chars(text.subrange(content_end..end), out)
}

// Appends the displayed text of paragraphs, one after another. Shows their contents in `line`. If an allocation fails,
// `out` may have some of the characters.
fn push_paragraphs<T: TextSource, M: MirroredCharacters>(
    line: &mut DisplayedLine,
    text: T,
    classes: &[BidiClass],
    levels: &[Level],
    paragraphs: &[ParagraphInfo],
    mirrors: &M,
    out: &mut String,
) -> Result<(), AllocError>
    requires classes { HaveClass (T.text text) classes.now }
    requires levels { HaveLevel (T.text text) levels.now }
    requires are_lines { AreLines (T.text text) (ranges_of paragraphs.now) }
    ensures options { options_of line.new ≡ options_of line.old }
    ensures text { OnOk result (string_bytes out.new ≡ string_bytes out.old ++ flat_map encode_utf8
        (displayed_paragraphs (options_of line.old) (M.mirrored_of mirrors.now)
        (with_lists (T.text text) classes.now levels.now) paragraphs.now)) }
    ensures extends { Extends (string_bytes out.old) (string_bytes out.new) }
{
    for paragraph in paragraphs {
        push_paragraph(line, text, classes, levels, paragraph, mirrors, out)?;
    }
    Ok(())
}

/// Analyses one text after another, displays it, and reuses its memory.
///
/// It has the paragraphs, the classes and the levels of the text that was analysed last, and the line that was shown
/// last. It does not refer to the text, so it can outlive it: the calls that display take the text again.
#[derive(Drop)]
pub struct TextDisplay {
    analyser: Analyser,
    // One for each code unit of the text.
    classes: Vec<BidiClass>,
    levels: Vec<Level>,
    line: DisplayedLine,
}

impl TextDisplay {
    ghost use Rattle.bidi_display.specs.TextDisplay.{classes as classes_in, levels as levels_in, paragraphs as paragraphs_in, line as line_in, HaveSameText, IsDisplayed};

    /// Returns a value that has analysed no text, and shows an empty line. Does not allocate.
    ///
    /// Lines and texts are displayed with these options.
    pub fn new(alloc: Global, options: DisplayOptions) -> TextDisplay
        ensures paragraphs { paragraphs_in result ≡ [] }
        ensures options { options_of (line_in result) ≡ options }
        ensures emptied { IsEmptied (line_in result) }
    {
        TextDisplay {
            analyser: Analyser::new(alloc),
            classes: Vec::new(alloc),
            levels: Vec::new(alloc),
            line: DisplayedLine::new(alloc, options),
        }
    }

    /// Finds the paragraphs of a text, and the class and the level of each character (P1 to I2).
    ///
    /// `base` says how the paragraphs get their levels. A level that it names is at most 125. `rule` says where paragraphs
    /// end. The result replaces that of the previous text, and the line that is shown stays. Reads the text a few times.
    /// If an allocation fails, there are no paragraphs, and the classes and levels are any.
    pub fn analyse<D: BidiDataSource, T: TextSource>(
        &mut self,
        alloc: Global,
        data_source: &D,
        text: T,
        base: Base,
        rule: SplitRule,
    ) -> Result<(), AllocError>
        requires { HasLowLevel base }
        ensures analysis { OnOk result (IsAnalysisWith (D.source data_source.now) base (Some rule)
            (with_lists (T.text text) (classes_in self.new) (levels_in self.new)) (ranges_of (paragraphs_in self.new))
            (paragraph_levels_of (paragraphs_in self.new))) }
        ensures emptied { OnErr result (paragraphs_in self.new ≡ []) }
        ensures line { line_in self.new ≡ line_in self.old }
    {
        if resize_lists(&mut self.classes, &mut self.levels, text.len()).is_err() {
            self.analyser = Analyser::new(alloc);
            return Err(AllocError);
        }
        self.analyser.analyse_with_base(
            alloc,
            data_source,
            text,
            base,
            Some(rule),
            self.classes.as_mut_slice(),
            self.levels.as_mut_slice(),
        )
    }

    /// Returns the paragraphs of the text that was analysed last, in order. Together they are the whole text.
    ///
    /// There are none before the first text, and after a failed allocation in [`TextDisplay::analyse`].
    pub fn paragraphs(&self) -> &[ParagraphInfo]
        ensures { result.now ≡ paragraphs_in self.now }
    {
        self.analyser.paragraphs()
    }

    /// Returns the stored class of each code unit of the text that was analysed last.
    ///
    /// An FSI is RLI or LRI here if a character decides its direction (X5c).
    pub fn classes(&self) -> &[BidiClass]
        ensures { result.now ≡ classes_in self.now }
    {
        self.classes.as_slice()
    }

    /// Returns the level of each code unit of the text that was analysed last, before L1.
    ///
    /// A character that X9 removes has the level of the character before it. At the start of a paragraph it has
    /// the paragraph level.
    pub fn levels(&self) -> &[Level]
        ensures { result.now ≡ levels_in self.now }
    {
        self.levels.as_slice()
    }

    /// Returns the line that was shown last.
    ///
    /// [`TextDisplay::push_text`] and [`TextDisplay::display`] show one paragraph after another, with clusters without
    /// width. So after them it is the last of these that was shown.
    pub fn line(&self) -> &DisplayedLine
        ensures { result.now ≡ line_in self.now }
    {
        &self.line
    }

    /// Shows a line of the text that was analysed last. Applies L1 and L2 to it.
    ///
    /// `text` must be that text. `line` is a range of code units that cuts no character (see `is_line`), and `para_level`
    /// is the level of its paragraph. [`TextDisplay::line`] then returns the line. The widths, the cost and the result
    /// of a failed allocation are those of [`DisplayedLine::show`].
    pub fn show_line<T: TextSource, W: ClusterWidth>(
        &mut self,
        text: T,
        para_level: Level,
        line: Range<usize>,
        widths: &W,
    ) -> Result<(), AllocError>
        requires is_line { IsLine (T.text text) line.start line.end }
        requires classes { HaveClass (T.text text) (classes_in self.old) }
        requires levels { HaveLevel (T.text text) (levels_in self.old) }
        ensures same { HaveSameText self.old self.new }
        ensures displays { OnOk result (Displays (W.width_of widths.now)
            (with_lists (T.text text) (classes_in self.old) (levels_in self.old)) para_level line (line_in self.new)) }
        ensures emptied { OnErr result (IsEmptied (line_in self.new)) }
    {
        let classes = self.classes.as_slice();
        self.line.show(
            text,
            classes,
            self.levels.as_slice(),
            para_level,
            line,
            widths,
        )
    }

    /// Appends the displayed text of the text that was analysed last, from left to right (L2, L4).
    ///
    /// `text` must be that text. Each paragraph is displayed as one line without the separators (B) at its end. They
    /// follow it, unchanged and in the order of the text. `mirrors` has the characters that are mirrored at odd levels.
    /// Takes time linear in the text, except for the order of each paragraph (see [`DisplayedLine::show`]). If an
    /// allocation fails, `out` has the text that it had before.
    pub fn push_text<T: TextSource, M: MirroredCharacters>(
        &mut self,
        text: T,
        mirrors: &M,
        out: &mut String,
    ) -> Result<(), AllocError>
        requires classes { HaveClass (T.text text) (classes_in self.old) }
        requires levels { HaveLevel (T.text text) (levels_in self.old) }
        requires are_lines { AreLines (T.text text) (ranges_of (paragraphs_in self.old)) }
        ensures same { HaveSameText self.old self.new }
        ensures text { OnOk result (string_bytes out.new ≡ string_bytes out.old ++ flat_map encode_utf8
            (displayed_paragraphs (options_of (line_in self.old)) (M.mirrored_of mirrors.now)
            (with_lists (T.text text) (classes_in self.old) (levels_in self.old)) (paragraphs_in self.old))) }
        ensures unchanged { OnErr result (string_bytes out.new ≡ string_bytes out.old) }
    {
        let len = out.len();
        let pushed = push_paragraphs(
            &mut self.line,
            text,
            self.classes.as_slice(),
            self.levels.as_slice(),
            self.analyser.paragraphs(),
            mirrors,
            out,
        );
        if pushed.is_err() {
            out.truncate(len);
            return Err(AllocError);
        }
        Ok(())
    }

    /// Analyses a text and appends its displayed text, from left to right (P1 to L4).
    ///
    /// `base` and `rule` are those of [`TextDisplay::analyse`], and `mirrors` is that of [`TextDisplay::push_text`]. The
    /// cost is that of both. If an allocation fails, `out` has the text that it had before, and the paragraphs, the
    /// classes and the levels are any.
    pub fn display<D: BidiDataSource, T: TextSource, M: MirroredCharacters>(
        &mut self,
        alloc: Global,
        data_source: &D,
        text: T,
        base: Base,
        rule: SplitRule,
        mirrors: &M,
        out: &mut String,
    ) -> Result<(), AllocError>
        requires { HasLowLevel base }
        ensures displayed { OnOk result (IsDisplayed (D.source data_source.now) base rule (T.text text)
            (M.mirrored_of mirrors.now) (options_of (line_in self.old)) (string_bytes out.old) (string_bytes out.new) self.new) }
        ensures options { options_of (line_in self.new) ≡ options_of (line_in self.old) }
        ensures unchanged { OnErr result (string_bytes out.new ≡ string_bytes out.old) }
    {
        self.analyse(alloc, data_source, text, base, rule)?;
        self.push_text(text, mirrors, out)
    }
}
