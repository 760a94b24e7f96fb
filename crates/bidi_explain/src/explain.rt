//! The stages of the paragraphs of a text.
ghost use Rattle.std.specs.Prelude.{◌≡◌, ◌<◌, ◌++◌, length, vec_len, All, IfOk, OnOk, string_bytes};
ghost use Rattle.bidi_explain.specs.Explained.{stages_text, IsReported, AreReported};

use crate::page::push_section;
use crate::stages::{Stages, find_stages};
use crate::table::push_table;
use crate::view::{Form, StageView};
use bidi_base::data_source::BidiDataSource;
use bidi_controls::lines::{first_paragraph_len, own_chars};
use std::alloc::{AllocError, Global};

/// Appends the stages of a paragraph in this form. A table fits a terminal of this width.
fn push_stages(
    alloc: Global,
    out: &mut String,
    form: Form,
    width: Option<u16>,
    chars: &[char],
    stages: &Stages,
) -> Result<(), AllocError>
    requires classes_same_len { vec_len stages.now.classes ≡ length chars.now }
    requires levels_same_len { vec_len stages.now.line_levels ≡ length chars.now }
    requires order { All (λ p. p < length chars.now) stages.now.order.items }
    requires places { vec_len stages.now.places ≡ length chars.now }
    ensures { OnOk result (string_bytes out.new ≡ string_bytes out.old ++ stages_text form width chars.now stages.now) }
{
    match form {
        Form::Table => push_table(alloc, out, width, chars, stages),
        Form::Page => push_section(alloc, out, chars, stages),
    }
}

/// Appends the results of the rules for a paragraph, without the separator that ends it.
fn push_paragraph<D: BidiDataSource>(
    alloc: Global,
    out: &mut String,
    data_source: &D,
    view: StageView,
    paragraph: &[char],
) -> Result<(), AllocError>
    ensures { OnOk result (IsReported (D.source data_source.now) view paragraph.now (string_bytes out.old) (string_bytes out.new)) }
{
    let own = own_chars(data_source, paragraph);
    let stages = find_stages(alloc, data_source, view.base.level(), own)?;
    push_stages(alloc, out, view.form, view.width, own, &stages)?;
    Ok(())
}

/// Returns the result of each stage of the rules for each paragraph of a text.
///
/// This is the level of the paragraph, the result of each stage for each character, and the isolating run sequences, as
/// a table with a tab before each cell, or as a section of a page of HTML. A table is split into blocks of columns that
/// fit the width of the view. Returns an error if an allocation fails.
pub fn explain<D: BidiDataSource>(
    alloc: Global,
    data_source: &D,
    view: StageView,
    chars: &[char],
) -> Result<String, AllocError>
    ensures { IfOk result (λ out. AreReported (D.source data_source.now) view chars.now (string_bytes out)) }
{
    let mut out = String::new(alloc);
    let mut rest = chars;
    while !rest.is_empty() {
        let (line, after) = rest.split_at(first_paragraph_len(data_source, rest));
        push_paragraph(alloc, &mut out, data_source, view, line)?;
        rest = after;
    }
    Ok(out)
}
