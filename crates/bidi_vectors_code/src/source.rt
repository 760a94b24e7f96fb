//! The sample table as a data source, and what the algorithm finds in texts over it.

use bidi_base::data_source::TableBidiData;
use bidi_base::sample;
use bidi_terminal::Base;
use std::alloc::Global;
use std::test::Fail;
use unicode_bidi::{BidiInfo, ParagraphBidiInfo, utf16};

/// Returns the sample table.
pub fn sample() -> Result<TableBidiData<'static>, Fail> {
    TableBidiData::new(&sample::RANGES, &sample::BRACKETS).map_err(|_| Fail::from(
        "the sample is faultless",
    ))
}

/// Analyses a text.
pub fn bidi_info(alloc: Global, text: &str, base: Base) -> Result<BidiInfo<'_>, Fail> {
    let info = BidiInfo::new_with_data_source(alloc, &sample()?, text, base.level())?;
    Ok(info)
}

/// Analyses a text as one paragraph.
pub fn paragraph_info(
    alloc: Global,
    text: &str,
    base: Base,
) -> Result<ParagraphBidiInfo<'_>, Fail> {
    let info = ParagraphBidiInfo::new_with_data_source(alloc, &sample()?, text, base.level())?;
    Ok(info)
}

/// Analyses a text of UTF-16.
pub fn utf16_info(alloc: Global, text: &[u16]) -> Result<utf16::BidiInfo<'_>, Fail> {
    let info = utf16::BidiInfo::new_with_data_source(alloc, &sample()?, text, None)?;
    Ok(info)
}
