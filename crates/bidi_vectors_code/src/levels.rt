//! Tests of the constants of levels, and of error conversions.

use crate::check::same;
use bidi_base::level::{
    LTR_LEVEL, Level, MAX_EXPLICIT_DEPTH, MAX_IMPLICIT_DEPTH, RTL_LEVEL, VecError, has_rtl,
};
use std::alloc::{AllocError, AllocFailed};
use std::test::Fail;

#[test]
fn constants(rt: HostRuntime) -> Result<(), Fail> {
    same(&rt, "left to right", LTR_LEVEL.number(), 0);
    same(&rt, "right to left", RTL_LEVEL.number(), 1);
    same(&rt, "Level::ltr", Level::ltr(), LTR_LEVEL);
    same(&rt, "Level::rtl", Level::rtl(), RTL_LEVEL);
    same(&rt, "explicit", MAX_EXPLICIT_DEPTH, 125);
    same(&rt, "implicit", MAX_IMPLICIT_DEPTH, 126);
    same(&rt, "max_explicit_depth", Level::max_explicit_depth(), 125);
    same(&rt, "max_implicit_depth", Level::max_implicit_depth(), 126);
    same(&rt, "u8", u8::from(Level::new(77)?), 77);
    Ok(())
}

#[test]
fn refusals(rt: HostRuntime) {
    assert!(rt; !has_rtl(&[LTR_LEVEL, LTR_LEVEL]));
    assert!(rt; has_rtl(&[LTR_LEVEL, RTL_LEVEL]));
    same(&rt, "refused", VecError::from(AllocError), VecError::Memory);
    let refused = AllocFailed { value: LTR_LEVEL };
    same(&rt, "not pushed", VecError::from(refused), VecError::Memory);
}
