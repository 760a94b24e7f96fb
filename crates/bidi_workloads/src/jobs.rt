//! The jobs, each through the public calls.
ghost use Rattle.std.specs.Prelude.{◌≤◌, IfSome};
ghost use Rattle.bidi_base.specs.AnalysedText.{IsLineOf};
ghost use Rattle.unicode_bidi.specs.BidiInfo.{analysed as analysed_of};

use crate::digest::Digest;
use crate::languages::{self, Language};
use crate::random::Random;
use crate::texts::{self, Sentences};
use bidi_base::level::{LTR_LEVEL, Level, RTL_LEVEL};
use bidi_controls::check::{Sought, findings_in};
use bidi_controls::file_search::{FileSearch, FoundLine};
use bidi_controls::finding::{Finding, Wanted};
use bidi_controls::report::push_place;
use bidi_text::text::{StrText, is_line};
use bidi_unicode::UnicodeData;
use std::alloc::{AllocError, Global};
use std::ops::Range;
use unicode_bidi::layout::{CharWidth, LineMap, lines};
use unicode_bidi::{BidiInfo, ParagraphBidiInfo, ParagraphInfo, utf16};

/// The size of a job.
#[derive(Clone, Copy)]
pub struct Amount {
    /// The number of inputs.
    pub count: usize,
    /// The size of each, in paragraphs, messages, lines or pieces.
    pub size: usize,
}

/// A job that users of the library wait for.
#[derive(Clone, Copy)]
pub enum Job {
    Documents,
    Lines,
    Messages,
    Controls,
    Sources,
    Hostile,
    Shown,
    Files,
}

/// All jobs.
pub const ALL: [Job; 8] = [
    Job::Documents,
    Job::Lines,
    Job::Messages,
    Job::Controls,
    Job::Sources,
    Job::Hostile,
    Job::Shown,
    Job::Files,
];

impl Job {
    /// Returns the name of the job in an argument.
    pub fn name(self) -> &'static str {
        match self {
            Job::Documents => "documents",
            Job::Lines => "lines",
            Job::Messages => "messages",
            Job::Controls => "controls",
            Job::Sources => "sources",
            Job::Hostile => "hostile",
            Job::Shown => "shown",
            Job::Files => "files",
        }
    }

    /// Does the job, and returns the digest of all results.
    pub fn run(self, alloc: Global, amount: Amount, seed: u32) -> Result<u64, AllocError> {
        let mut digest = Digest::new();
        let mut random = Random::new(seed);
        match self {
            Job::Documents => documents(alloc, &mut random, amount, &mut digest)?,
            Job::Lines => lay_out(alloc, &mut random, amount, &mut digest)?,
            Job::Messages => messages(alloc, &mut random, amount, &mut digest)?,
            Job::Controls => controls(alloc, &mut random, amount, &mut digest)?,
            Job::Sources => sources(alloc, &mut random, amount, &mut digest)?,
            Job::Hostile => hostile(alloc, &mut random, amount, &mut digest)?,
            Job::Shown => shown(alloc, &mut random, amount, &mut digest)?,
            Job::Files => files(alloc, &mut random, amount, &mut digest)?,
        }
        Ok(digest.number())
    }
}

// Returns the sentences of each language of documents.
fn all_sentences(alloc: Global, random: &mut Random) -> Result<Vec<Sentences>, AllocError> {
    let mut all = Vec::new(alloc);
    for language in languages::of_documents() {
        all.push(Sentences::new(alloc, random, language)?)?;
    }
    Ok(all)
}

// Returns the sentences of the document with this index: the languages take turns.
fn turn(all: &[Sentences], index: usize) -> Option<&Sentences> {
    if all.is_empty() {
        return None;
    }
    all.get(index % all.len())
}

fn add_paragraphs(digest: &mut Digest, paragraphs: &[ParagraphInfo]) {
    for paragraph in paragraphs {
        digest.add_range(&paragraph.range());
        digest.add(u64::from(paragraph.level().number()));
    }
}

fn analyse(alloc: Global, text: &str, digest: &mut Digest) -> Result<(), AllocError> {
    let info = BidiInfo::new_with_data_source(alloc, &UnicodeData, text, None)?;
    add_paragraphs(digest, info.paragraphs());
    digest.add_classes(info.original_classes());
    digest.add_levels(info.levels());
    Ok(())
}

fn analyse_utf16(alloc: Global, text: &[u16], digest: &mut Digest) -> Result<(), AllocError> {
    let info = utf16::BidiInfo::new_with_data_source(alloc, &UnicodeData, text, None)?;
    add_paragraphs(digest, info.paragraphs());
    digest.add_classes(info.original_classes());
    digest.add_levels(info.levels());
    Ok(())
}

// Opens documents, a fourth of them in UTF-16.
fn documents(
    alloc: Global,
    random: &mut Random,
    amount: Amount,
    digest: &mut Digest,
) -> Result<(), AllocError> {
    let all = all_sentences(alloc, random)?;
    for index in 0..amount.count {
        if let Some(sentences) = turn(all.as_slice(), index) {
            if index % 32 < 8 {
                let text = texts::document_utf16(alloc, random, sentences, amount.size)?;
                analyse_utf16(alloc, text.as_slice(), digest)?;
            } else {
                let text = texts::document(alloc, random, sentences, amount.size)?;
                analyse(alloc, text.as_str(), digest)?;
            }
        }
    }
    Ok(())
}

// Each character is one wide.
struct One;

impl CharWidth for One {
    ghost width_of = { λ _ _. 1 };

    fn width(&self, _c: char) -> usize {
        1
    }
}

// Lays a document out in lines, and makes the calls for each line that a layout engine makes.
fn lay_out_text(
    alloc: Global,
    text: &str,
    length: usize,
    digest: &mut Digest,
) -> Result<(), AllocError> {
    let info = BidiInfo::new_with_data_source(alloc, &UnicodeData, text, None)?;
    for paragraph in info.paragraphs() {
        for line in lines(alloc, &info, paragraph, &One, length)? {
            let range = line.start..line.end;
            let levels = info.levels_of_line(alloc, paragraph, line.start..line.end)?;
            digest.add_levels(levels.as_slice());
            let order = BidiInfo::reorder_visual(alloc, levels.as_slice())?;
            digest.add_places(order.as_slice());
            for run in info.line_runs(alloc, paragraph, line.start..line.end)? {
                digest.add_range(&run);
            }
            digest.add_map(&LineMap::new(alloc, &info, paragraph, line)?);
            let shown = info.reorder_line(alloc, paragraph, range)?;
            digest.add_bytes(shown.as_str().as_bytes());
        }
        let shown = info.reorder_line(alloc, paragraph, paragraph.range())?;
        digest.add_bytes(shown.as_str().as_bytes());
    }
    Ok(())
}

fn lay_out(
    alloc: Global,
    random: &mut Random,
    amount: Amount,
    digest: &mut Digest,
) -> Result<(), AllocError> {
    let all = all_sentences(alloc, random)?;
    for index in 0..amount.count {
        if let Some(sentences) = turn(all.as_slice(), index) {
            let text = texts::document(alloc, random, sentences, amount.size)?;
            let length = 40 + random.below(60);
            lay_out_text(alloc, text.as_str(), length, digest)?;
        }
    }
    Ok(())
}

// Analyses a short text as one paragraph, and shows it in one line.
fn show_paragraph(
    alloc: Global,
    text: &str,
    base_level: Option<Level>,
    digest: &mut Digest,
) -> Result<(), AllocError>
    requires { IfSome base_level (λ level. level ≤ 125) }
{
    let info = ParagraphBidiInfo::new_with_data_source(alloc, &UnicodeData, text, base_level)?;
    digest.add(u64::from(info.paragraph_level().number()));
    let line = 0..text.len();
    if is_line(StrText::new(info.text()), &line) {
        let shown = info.reorder_line(alloc, line)?;
        digest.add_bytes(shown.as_str().as_bytes());
    }
    Ok(())
}

// Analyses a text, and shows each of its paragraphs in one line.
fn show_text(
    alloc: Global,
    text: &str,
    base_level: Option<Level>,
    digest: &mut Digest,
) -> Result<(), AllocError>
    requires { IfSome base_level (λ level. level ≤ 125) }
{
    let info = BidiInfo::new_with_data_source(alloc, &UnicodeData, text, base_level)?;
    for paragraph in info.paragraphs() {
        digest.add(u64::from(paragraph.level().number()));
        let shown = info.reorder_line(alloc, paragraph, paragraph.range())?;
        digest.add_bytes(shown.as_str().as_bytes());
    }
    Ok(())
}

// Returns the base level of the text with this index: the base levels take turns.
fn base_level(index: usize) -> Option<Level>
    ensures { IfSome result (λ level. level ≤ 125) }
{
    match index % 4 {
        0 => Some(LTR_LEVEL),
        1 => Some(RTL_LEVEL),
        _ => None,
    }
}

fn language_of_message(random: &mut Random) -> &'static Language {
    let languages = languages::of_messages();
    languages[random.below(languages.len())]
}

// Analyses lists of short texts, and shows each text in one line.
fn messages(
    alloc: Global,
    random: &mut Random,
    amount: Amount,
    digest: &mut Digest,
) -> Result<(), AllocError> {
    let mut text = String::new(alloc);
    for _ in 0..amount.count {
        for index in 0..amount.size {
            let language = language_of_message(random);
            texts::write_message(&mut text, random, language)?;
            if index % 2 == 0 {
                show_paragraph(alloc, text.as_str(), base_level(index / 2), digest)?;
            } else {
                show_text(alloc, text.as_str(), base_level(index / 2), digest)?;
            }
        }
    }
    Ok(())
}

// Analyses pages that programs put together, with controls in them.
fn controls(
    alloc: Global,
    random: &mut Random,
    amount: Amount,
    digest: &mut Digest,
) -> Result<(), AllocError> {
    let languages = languages::of_documents();
    for _ in 0..amount.count {
        let text = texts::page(alloc, random, &languages, amount.size)?;
        show_text(alloc, text.as_str(), None, digest)?;
    }
    Ok(())
}

// Appends a line of text for a finding.
fn push_finding(out: &mut String, name: &str, finding: &Finding) -> Result<(), AllocError> {
    push_place(out, name, finding)?;
    if let Some(control) = finding.control {
        out.push_str(control.name())?;
        out.push_str(" ")?;
    }
    out.push_str(finding.trouble.text())?;
    out.push_str("\n")
}

// Returns a line of text for each finding in a file.
fn report(alloc: Global, name: &str, findings: &[Finding]) -> Result<String, AllocError> {
    let mut out = String::new(alloc);
    for finding in findings {
        push_finding(&mut out, name, finding)?;
    }
    Ok(out)
}

// Checks source files for controls.
fn sources(
    alloc: Global,
    random: &mut Random,
    amount: Amount,
    digest: &mut Digest,
) -> Result<(), AllocError> {
    for index in 0..amount.count {
        let lines = amount.size.saturating_add(random.below(200));
        let file = texts::source_file(alloc, random, lines)?;
        let any = index % 2 == 1;
        let found = findings_in(alloc, &UnicodeData, any, file.as_slice())?;
        let reported = report(alloc, "source", found.as_slice())?;
        digest.add_bytes(reported.as_str().as_bytes());
    }
    Ok(())
}

// The number of bytes of a file that are read at once.
const PIECE: usize = 0x4_0000;

// Adds the number of a line, its findings, and its paragraphs as they are displayed.
fn add_found(digest: &mut Digest, line: &FoundLine) {
    digest.add(line.number as u64);
    for finding in line.findings.as_slice() {
        digest.add(finding.column as u64);
    }
    for paragraph in line.displayed.as_slice() {
        for c in paragraph.chars.as_slice() {
            digest.add(u64::from(u32::from(*c)));
        }
    }
}

// Searches a file piece by piece, as `bidi check` does.
fn search_file(alloc: Global, file: &[u8], digest: &mut Digest) -> Result<(), AllocError> {
    let sought = Sought {
        wanted: Wanted::MISLEADING,
        displays: true,
    };
    let mut search = FileSearch::new(alloc, sought);
    let mut bytes = Vec::new(alloc);
    let mut found = Vec::new(alloc);
    for piece in file.chunks(PIECE) {
        bytes.extend_from_slice(piece)?;
        if search.has_room(bytes.len()) {
            search.push_read(alloc, false, &mut bytes, &mut found)?;
        }
    }
    if search.has_room(bytes.len()) {
        search.push_read(alloc, true, &mut bytes, &mut found)?;
    }
    for line in &found {
        add_found(digest, line);
    }
    digest.add(search.lines as u64);
    Ok(())
}

// Searches the bytes of source files.
fn files(
    alloc: Global,
    random: &mut Random,
    amount: Amount,
    digest: &mut Digest,
) -> Result<(), AllocError> {
    for _ in 0..amount.count {
        let lines = amount.size.saturating_add(random.below(200));
        let file = texts::source_file(alloc, random, lines)?;
        let mut text = String::new(alloc);
        for c in &file {
            text.push(*c)?;
        }
        search_file(alloc, text.as_bytes(), digest)?;
    }
    Ok(())
}

// Adds the level runs of a line.
fn add_runs(
    alloc: Global,
    info: &BidiInfo<'_>,
    paragraph: &ParagraphInfo,
    line: Range<usize>,
    digest: &mut Digest,
) -> Result<(), AllocError> {
    if is_line(StrText::new(info.text()), &line) {
        for run in info.line_runs(alloc, paragraph, line)? {
            digest.add_range(&run);
        }
    }
    Ok(())
}

// Analyses texts that strangers send to a server, one paragraph each, and shows each in one line.
fn hostile(
    alloc: Global,
    random: &mut Random,
    amount: Amount,
    digest: &mut Digest,
) -> Result<(), AllocError> {
    for _ in 0..amount.count {
        for shape in 0..texts::shapes() {
            let pieces = amount.size.saturating_add(random.below(1_000));
            let text = texts::hostile(alloc, random, shape, pieces)?;
            let info = BidiInfo::new_with_data_source(alloc, &UnicodeData, text.as_str(), None)?;
            digest.add_levels(info.levels());
            for paragraph in info.paragraphs() {
                add_runs(alloc, &info, paragraph, paragraph.range(), digest)?;
                let shown = info.reorder_line(alloc, paragraph, paragraph.range())?;
                digest.add_bytes(shown.as_str().as_bytes());
            }
        }
    }
    Ok(())
}

/// The widths of a window that is made wider, in characters.
const WINDOW_WIDTHS: [usize; 6] = [24, 36, 50, 64, 80, 100];

/// The widths of a list that is shown in a narrow column and in a wide one, in characters.
const COLUMN_WIDTHS: [usize; 2] = [16, 40];

/// The number of short texts for each paragraph of a document.
const TEXTS_PER_PARAGRAPH: usize = 8;

// Makes the calls that drawing a line needs.
fn draw_line(
    alloc: Global,
    info: &BidiInfo<'_>,
    paragraph: &ParagraphInfo,
    line: Range<usize>,
    digest: &mut Digest,
) -> Result<(), AllocError>
    requires { IsLineOf (analysed_of info.now) line }
{
    let levels = info.levels_of_line(alloc, paragraph, line.start..line.end)?;
    digest.add_levels(levels.as_slice());
    for run in info.line_runs(alloc, paragraph, line.start..line.end)? {
        digest.add_range(&run);
    }
    let shown = info.reorder_line(alloc, paragraph, line)?;
    digest.add_bytes(shown.as_str().as_bytes());
    Ok(())
}

// Draws the lines of an analysed text at one width. The caret is in the first line of each paragraph.
fn draw_lines(
    alloc: Global,
    info: &BidiInfo<'_>,
    width: usize,
    digest: &mut Digest,
) -> Result<(), AllocError> {
    for paragraph in info.paragraphs() {
        for line in lines(alloc, info, paragraph, &One, width)? {
            if line.start == paragraph.range().start {
                digest.add_map(&LineMap::new(alloc, info, paragraph, line.start..line.end)?);
            }
            draw_line(alloc, info, paragraph, line, digest)?;
        }
    }
    Ok(())
}

// Analyses a document once, and draws it again whenever its window gets wider.
fn draw_document(alloc: Global, text: &str, digest: &mut Digest) -> Result<(), AllocError> {
    let info = BidiInfo::new_with_data_source(alloc, &UnicodeData, text, None)?;
    for width in WINDOW_WIDTHS {
        draw_lines(alloc, &info, width, digest)?;
    }
    Ok(())
}

// Analyses short texts once for each base level, and shows the text of their lines at two widths.
fn show_list(
    alloc: Global,
    random: &mut Random,
    count: usize,
    digest: &mut Digest,
) -> Result<(), AllocError> {
    let mut text = String::new(alloc);
    for _ in 0..count {
        let language = language_of_message(random);
        texts::write_message(&mut text, random, language)?;
        for index in 0..3 {
            show_in_columns(alloc, text.as_str(), base_level(index), digest)?;
        }
    }
    Ok(())
}

fn show_in_columns(
    alloc: Global,
    text: &str,
    base_level: Option<Level>,
    digest: &mut Digest,
) -> Result<(), AllocError>
    requires { IfSome base_level (λ level. level ≤ 125) }
{
    let info = BidiInfo::new_with_data_source(alloc, &UnicodeData, text, base_level)?;
    for width in COLUMN_WIDTHS {
        for paragraph in info.paragraphs() {
            for line in lines(alloc, &info, paragraph, &One, width)? {
                let shown = info.reorder_line(alloc, paragraph, line)?;
                digest.add_bytes(shown.as_str().as_bytes());
            }
        }
    }
    Ok(())
}

// Shows documents in a window that changes its width, and lists of short texts.
fn shown(
    alloc: Global,
    random: &mut Random,
    amount: Amount,
    digest: &mut Digest,
) -> Result<(), AllocError> {
    let all = all_sentences(alloc, random)?;
    for index in 0..amount.count {
        if let Some(sentences) = turn(all.as_slice(), index) {
            let text = texts::document(alloc, random, sentences, amount.size)?;
            draw_document(alloc, text.as_str(), digest)?;
            let count = amount.size.saturating_mul(TEXTS_PER_PARAGRAPH);
            show_list(alloc, random, count, digest)?;
        }
    }
    Ok(())
}
