//! Callers of `unicode_bidi` with their own contracts: see its CALLING.md.
ghost use Rattle.std.specs.Prelude.{◌≡◌, ◌++◌, IfOk, OnOk, None, flat_map, map, string_bytes};
ghost use Rattle.std.specs.Cow.{cow_str_bytes};
ghost use Rattle.std.specs.Str.{chars};
ghost use Rattle.bidi_base.specs.AnalysedText.{IsLineOf};
ghost use Rattle.bidi_base.specs.Isolates.{paragraph_level};
ghost use Rattle.bidi_base.specs.Levels.{is_odd};
ghost use Rattle.bidi_base.specs.Order.{IsVisualOrder};
ghost use Rattle.bidi_vectors_examples.specs.Runs.{mirrored_run, runs_of_line, shown_paragraph, shown_run};
ghost use Rattle.bidi_unicode.specs.Unicode.{unicode_source};
ghost use Rattle.bidi_paragraphs.specs.ParagraphInfo.{level_of};
ghost use Rattle.unicode_bidi.specs.BidiInfo.{analysed, text};

use bidi_unicode::{UnicodeData, mirrored};
use std::alloc::{AllocError, Global};
use std::borrow::CowStr;
use std::io;
use std::ops::Range;
use unicode_bidi::data_source::BidiDataSource;
use unicode_bidi::level::Level;
use unicode_bidi::{BidiInfo, ParagraphBidiInfo, ParagraphInfo};

/// Returns whether a caption is right-to-left, by its first strong character.
pub fn begins_right<D: BidiDataSource>(
    alloc: Global,
    source: &D,
    caption: &str,
) -> Result<bool, AllocError>
    ensures { let classes = map (D.source source.now).class_of (chars caption.now) in
        IfOk result (λ right. right ≡ is_odd (paragraph_level None classes)) }
{
    let info = ParagraphBidiInfo::new_with_data_source(alloc, source, caption, None)?;
    Ok(info.paragraph_level().is_rtl())
}

/// Returns the order in which the cells of a row are shown from left to right, by their levels.
pub fn columns(alloc: Global, levels: &[Level]) -> Result<Vec<usize>, AllocError>
    ensures { IfOk result (λ order. IsVisualOrder levels.now order.items) }
{
    BidiInfo::reorder_visual(alloc, levels)
}

/// Returns the text and the number of the level of each visual run of a line, from left to right.
pub fn visual_runs<'t>(
    alloc: Global,
    info: &BidiInfo<'t>,
    paragraph: &ParagraphInfo,
    line: Range<usize>,
) -> Result<Vec<(&'t str, u8)>, AllocError>
    requires { IsLineOf (analysed info.now) line }
    ensures { let runs = runs_of_line (text info.now) (analysed info.now) (level_of paragraph.now) line in
        IfOk result (λ shown. map (λ run. (run.0.now, run.1)) shown.items ≡ runs) }
{
    let text = info.text();
    let levels = info.levels_of_line(alloc, paragraph, line.start..line.end)?;
    let mut runs = Vec::new(alloc);
    for run in &info.line_runs(alloc, paragraph, line.start..line.end)? {
        let level = levels[run.start - line.start].number();
        runs.push((&text[run.start..run.end], level))?;
    }
    Ok(runs)
}

// Appends the characters of a run in reverse, each as its mirrored character if it has one (L4).
fn push_mirrored(out: &mut String, run: &str) -> Result<(), AllocError>
    ensures { OnOk result (string_bytes out.new ≡ string_bytes out.old ++ mirrored_run run.now) }
{
    for c in run.chars().rev() {
        out.push(mirrored(c).unwrap_or(c))?;
    }
    Ok(())
}

/// Returns the text of a line from left to right, with the characters of odd runs mirrored (L4).
pub fn mirrored_line(
    alloc: Global,
    info: &BidiInfo<'_>,
    paragraph: &ParagraphInfo,
    line: Range<usize>,
) -> Result<String, AllocError>
    requires { IsLineOf (analysed info.now) line }
    ensures { let runs = runs_of_line (text info.now) (analysed info.now) (level_of paragraph.now) line in
        IfOk result (λ shown. string_bytes shown ≡ flat_map shown_run runs) }
{
    let mut shown = String::new(alloc);
    for (run, level) in visual_runs(alloc, info, paragraph, line)? {
        if level % 2 == 1 {
            push_mirrored(&mut shown, run)?;
        } else {
            shown.push_str(run)?;
        }
    }
    Ok(shown)
}

/// Returns a line from left to right. The line is a paragraph by itself.
pub fn shown_line(alloc: Global, line: &str) -> Result<CowStr<'_>, AllocError>
    ensures { IfOk result (λ shown. cow_str_bytes shown ≡ shown_paragraph unicode_source line.now) }
{
    let info = ParagraphBidiInfo::new_with_data_source(alloc, &UnicodeData, line, None)?;
    info.reorder_line(alloc, 0..line.len())
}

// Prints a line from left to right.
fn print_line(rt: &(impl Print + AllocGlobal), line: &str) -> io::Result<()> {
    let shown = shown_line(rt.alloc(), line)?;
    println!(rt; "{}", shown.as_str())
}

/// Prints each line of the standard input from left to right.
pub fn show_input(rt: &(impl Input + Print + AllocGlobal)) -> io::Result<()> {
    for line in rt.lines(rt.alloc()) {
        print_line(rt, line?.as_str())?;
    }
    Ok(())
}
