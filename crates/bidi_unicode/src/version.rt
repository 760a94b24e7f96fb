//! The version of Unicode's data.

/// The version of Unicode from which `UnicodeData` takes its classes and brackets: the major, minor and
/// update number.
pub const UNICODE_VERSION: (u64, u64, u64) = (18, 0, 0);

const _: () = prove!(UNICODE_VERSION.0 == ucd_table::UNICODE_VERSION.0 as u64);

const _: () = prove!(UNICODE_VERSION.1 == ucd_table::UNICODE_VERSION.1 as u64);

const _: () = prove!(UNICODE_VERSION.2 == ucd_table::UNICODE_VERSION.2 as u64);
