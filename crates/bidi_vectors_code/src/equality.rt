//! Tests that two results are equal exactly if their texts, classes, levels and paragraphs are equal.
ghost use Rattle.std.specs.Prelude.{◌≡◌, IsTrue};
ghost use Rattle.unicode_bidi.specs.BidiInfo.{text};

use crate::check::same;
use crate::source::{bidi_info, paragraph_info, sample, utf16_info};
use bidi_terminal::Base;
use std::alloc::Global;
use std::test::Fail;
use unicode_bidi::{BidiInfo, InitialInfo};

// A text with its base level, and whether its result is equal to that of "a b" without one.
#[derive(Clone, Copy)]
struct Compared(&'static str, Base, bool);

const COMPARED: [Compared; 4] = [
    Compared("a b", Base::Auto, true),
    Compared("a b", Base::Ltr, true),
    Compared("a b", Base::Rtl, false),
    Compared("a c", Base::Auto, false),
];

// Compares two results behind references. The kit has no proof for `one == other` here.
fn are_equal<'t>(one: &BidiInfo<'t>, other: &BidiInfo<'t>) -> bool
    ensures { IsTrue result → text one.now ≡ text other.now }
{
    *one == *other
}

#[test]
fn infos(rt: HostRuntime) -> Result<(), Fail> {
    let one = bidi_info(rt.alloc(), "a b", Base::Auto)?;
    for Compared(text, base, is_equal) in COMPARED {
        let other = bidi_info(rt.alloc(), text, base)?;
        same(&rt, text, are_equal(&one, &other), is_equal);
    }
    Ok(())
}

#[test]
fn paragraph_infos(rt: HostRuntime) -> Result<(), Fail> {
    let one = paragraph_info(rt.alloc(), "a b", Base::Auto)?;
    for Compared(text, base, is_equal) in COMPARED {
        let other = paragraph_info(rt.alloc(), text, base)?;
        same(&rt, text, one == other, is_equal);
    }
    Ok(())
}

fn initial_info(alloc: Global, text: &str, base: Base) -> Result<InitialInfo<'_>, Fail> {
    let info = InitialInfo::new_with_data_source(alloc, &sample()?, text, base.level())?;
    Ok(info)
}

#[test]
fn initial_infos(rt: HostRuntime) -> Result<(), Fail> {
    let one = initial_info(rt.alloc(), "a b", Base::Auto)?;
    for Compared(text, base, is_equal) in COMPARED {
        let other = initial_info(rt.alloc(), text, base)?;
        same(&rt, text, one == other, is_equal);
    }
    Ok(())
}

// Two different unpaired surrogates are both U+FFFD, but the texts differ.
const UNPAIRED: [(&[u16], bool); 2] = [(&[0xd800], true), (&[0xd801], false)];

#[test]
fn utf16_infos(rt: HostRuntime) -> Result<(), Fail> {
    let one = utf16_info(rt.alloc(), &[0xd800])?;
    for (text, is_equal) in UNPAIRED {
        let other = utf16_info(rt.alloc(), text)?;
        same(&rt, "surrogates", one == other, is_equal);
    }
    Ok(())
}
