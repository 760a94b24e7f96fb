// The paragraphs and the stored classes of a text.
ghost use Rattle.std.specs.Prelude.{◌≡◌, IfOk, Some};
ghost use Rattle.bidi_base.specs.AnalysedText.{AreParagraphs};
ghost use Rattle.bidi_base.specs.PerChar.{HaveClass};
ghost use Rattle.bidi_paragraphs.specs.ParagraphInfo.{ranges_of, levels_of};

use bidi_base::char_data::BidiClass;
use bidi_base::data_source::BidiDataSource;
use bidi_base::level::Level;
use bidi_base::split_rule::SplitRule;
use bidi_paragraphs::first_pass::{FoundParagraphs, walk};
use bidi_paragraphs::paragraph_info::ParagraphInfo;
use bidi_text::text::TextSource;
use smallvec::SmallVec;
use std::alloc::{AllocError, Global};

/// The paragraphs of a text and the classes of its characters, before any level is resolved.
#[derive(PartialEq, Debug, Drop)]
pub struct InitialInfo<T: TextSource> {
    pub(crate) text: T,
    original_classes: Vec<BidiClass>,
    paragraphs: SmallVec<ParagraphInfo, 1>,
    ghost classes_per_char: { HaveClass T.encoding.len_of (T.text text).chars original_classes.items },
}

impl<T: TextSource> InitialInfo<T> {
    ghost use Rattle.unicode_bidi.specs.InitialInfo.{len_of, chars_of, original_classes, paragraphs};

    // Finds the paragraphs of a text in any encoding with their levels (P1 to P3), and the class of each character.
    pub(crate) fn of_text<D: BidiDataSource>(
        alloc: Global,
        data_source: &D,
        text: T,
        default_para_level: Option<Level>,
    ) -> Result<InitialInfo<T>, AllocError>
        ensures text { IfOk result (λ i. i.text ≡ text) }
        ensures paragraphs { IfOk result (λ i. AreParagraphs (D.source data_source.now) default_para_level
            (Some SplitRule.EachSeparator) (len_of i) (chars_of i) (original_classes i) (ranges_of (paragraphs i))
            (levels_of (paragraphs i))) }
    {
        let rule = Some(SplitRule::EachSeparator);
        let mut original_classes = vec![in alloc; BidiClass::L; text.len()]?;
        let memory = FoundParagraphs::new(alloc);
        let classes = original_classes.as_mut_slice();
        let found = walk(data_source, text, default_para_level, rule, classes, memory)?;
        Ok(InitialInfo {
            text,
            original_classes,
            paragraphs: found.paragraphs,
        })
    }

    /// Returns the class of each code unit's character.
    ///
    /// An FSI is RLI or LRI here if a character decides its direction (X5c).
    pub fn original_classes(&self) -> &[BidiClass]
        ensures classes { result.now ≡ original_classes self.now }
        ensures per_char { HaveClass (len_of self.now) (chars_of self.now) result.now }
    {
        self.original_classes.as_slice()
    }

    /// Returns the paragraphs in order. Together they are the whole text.
    pub fn paragraphs(&self) -> &[ParagraphInfo]
        ensures { result.now ≡ paragraphs self.now }
    {
        self.paragraphs.as_slice()
    }
}
