//! The version of the library.

/// The version of the library: its major, minor and patch number.
///
/// The version of Unicode's data is `UNICODE_VERSION` of `bidi_unicode`.
pub const VERSION: (u64, u64, u64) = (0, 1, 0);
