//! The cells of the tables that show what each stage does with a text.
ghost use Rattle.std.specs.Prelude.{◌≡◌, ◌++◌, length, map, zip, decimal, IfOk, OnOk, string_bytes};
ghost use Rattle.std.specs.List.{range_with_len};
ghost use Rattle.bidi_explain.specs.Cells.{class_name, option_name, is_unseen, plain_glyph, glyph};
ghost use Rattle.bidi_terminal.specs.CodePoints.{code_point};

use bidi_base::char_data::BidiClass;
use bidi_base::classes::is_nsm;
use bidi_base::level::Level;
use bidi_controls::control::Control;
use bidi_terminal::{push_code_point, push_number};
use std::alloc::{AllocError, Global};

/// Returns the name of a class.
pub fn class_name(class: BidiClass) -> &'static str
    ensures { result.now ≡ class_name class }
{
    match class {
        BidiClass::L => "L",
        BidiClass::R => "R",
        BidiClass::AL => "AL",
        BidiClass::EN => "EN",
        BidiClass::ES => "ES",
        BidiClass::ET => "ET",
        BidiClass::AN => "AN",
        BidiClass::CS => "CS",
        BidiClass::NSM => "NSM",
        BidiClass::BN => "BN",
        BidiClass::B => "B",
        BidiClass::S => "S",
        BidiClass::WS => "WS",
        BidiClass::ON => "ON",
        BidiClass::LRE => "LRE",
        BidiClass::LRO => "LRO",
        BidiClass::RLE => "RLE",
        BidiClass::RLO => "RLO",
        BidiClass::PDF => "PDF",
        BidiClass::LRI => "LRI",
        BidiClass::RLI => "RLI",
        BidiClass::FSI => "FSI",
        BidiClass::PDI => "PDI",
    }
}

/// Returns the name of a class, or a dash for none.
fn option_name(class: Option<BidiClass>) -> &'static str
    ensures { result.now ≡ option_name class }
{
    match class {
        Some(class) => class_name(class),
        None => "-",
    }
}

/// Returns whether characters of this class are invisible: white space, separators, and boundary neutrals.
fn is_unseen(class: BidiClass) -> bool
    ensures { result ≡ is_unseen class }
{
    matches!(
        class,
        BidiClass::B | BidiClass::S | BidiClass::WS | BidiClass::BN
    )
}

/// Appends a character that is not a direction control.
fn push_plain_glyph(out: &mut String, class: BidiClass, c: char) -> Result<(), AllocError>
    ensures { OnOk result (string_bytes out.new ≡ string_bytes out.old ++ plain_glyph class c) }
{
    if is_unseen(class) {
        return Ok(());
    }
    if is_nsm(class) {
        out.push_str("\u{25CC}")?;
    }
    out.push(c)?;
    Ok(())
}

/// Appends a character so that it can be read by itself.
///
/// A control or a mark becomes its short name. A nonspacing mark follows a dotted circle. White space, separators and
/// other invisible characters become nothing.
pub fn push_glyph(out: &mut String, class: BidiClass, c: char) -> Result<(), AllocError>
    ensures { OnOk result (string_bytes out.new ≡ string_bytes out.old ++ glyph class c) }
{
    match Control::of(class, c) {
        Some(control) => out.push_str(control.short_name())?,
        None => push_plain_glyph(out, class, c)?,
    }
    Ok(())
}

/// Returns one cell for each index of a list of length `len`.
pub fn index_cells(alloc: Global, len: usize) -> Result<Vec<String>, AllocError>
    ensures { IfOk result (λ v. map string_bytes v.items ≡ map decimal (range_with_len 0 len)) }
{
    let mut cells = Vec::with_capacity(alloc, len)?;
    for index in 0..len {
        let mut cell = String::new(alloc);
        push_number(&mut cell, index)?;
        cells.push(cell)?;
    }
    Ok(cells)
}

/// Returns one cell for each number.
pub fn number_cells(alloc: Global, numbers: &[usize]) -> Result<Vec<String>, AllocError>
    ensures { IfOk result (λ v. map string_bytes v.items ≡ map decimal numbers.now) }
{
    let mut cells = Vec::with_capacity(alloc, numbers.len())?;
    for number in numbers {
        let mut cell = String::new(alloc);
        push_number(&mut cell, *number)?;
        cells.push(cell)?;
    }
    Ok(cells)
}

/// Returns one cell for each level: its number.
pub fn level_cells(alloc: Global, levels: &[Level]) -> Result<Vec<String>, AllocError>
    ensures { IfOk result (λ v. map string_bytes v.items ≡ map decimal levels.now) }
{
    let mut cells = Vec::with_capacity(alloc, levels.len())?;
    for level in levels {
        let mut cell = String::new(alloc);
        push_number(&mut cell, usize::from(level.number()))?;
        cells.push(cell)?;
    }
    Ok(cells)
}

/// Returns one cell for each character: its code point in hexadecimal.
pub fn code_cells(alloc: Global, chars: &[char]) -> Result<Vec<String>, AllocError>
    ensures { IfOk result (λ v. map string_bytes v.items ≡ map code_point chars.now) }
{
    let mut cells = Vec::with_capacity(alloc, chars.len())?;
    for c in chars {
        let mut cell = String::new(alloc);
        push_code_point(&mut cell, *c)?;
        cells.push(cell)?;
    }
    Ok(cells)
}

/// Returns one cell for each class: its name.
pub fn class_cells(alloc: Global, classes: &[BidiClass]) -> Result<Vec<String>, AllocError>
    ensures { IfOk result (λ v. map string_bytes v.items ≡ map class_name classes.now) }
{
    let mut cells = Vec::with_capacity(alloc, classes.len())?;
    for class in classes {
        cells.push(String::from_str(alloc, class_name(*class))?)?;
    }
    Ok(cells)
}

/// Returns one cell for each class: its name, or a dash for none.
pub fn option_cells(alloc: Global, classes: &[Option<BidiClass>]) -> Result<Vec<String>, AllocError>
    ensures { IfOk result (λ v. map string_bytes v.items ≡ map option_name classes.now) }
{
    let mut cells = Vec::with_capacity(alloc, classes.len())?;
    for class in classes {
        cells.push(String::from_str(alloc, option_name(*class))?)?;
    }
    Ok(cells)
}

/// Returns one cell for each character, as [`push_glyph`] writes it. There must be one class for each character.
pub fn glyph_cells(
    alloc: Global,
    classes: &[BidiClass],
    chars: &[char],
) -> Result<Vec<String>, AllocError>
    requires { length classes.now ≡ length chars.now }
    ensures { IfOk result (λ v. map string_bytes v.items ≡ map (λ e. glyph e.0 e.1) (zip classes.now chars.now)) }
{
    let mut cells = Vec::with_capacity(alloc, chars.len())?;
    for (at, c) in chars.iter().enumerate() {
        let mut cell = String::new(alloc);
        push_glyph(&mut cell, classes[at], *c)?;
        cells.push(cell)?;
    }
    Ok(cells)
}
