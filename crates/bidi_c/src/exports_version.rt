//! The exports of versions.
use crate::version::{data_version, library_version};

#[unsafe(no_mangle)]
pub extern "C" fn unicode_bidi_version() -> i64 {
    library_version()
}

#[unsafe(no_mangle)]
pub extern "C" fn unicode_bidi_unicode_version() -> i64 {
    data_version()
}
