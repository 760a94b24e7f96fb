//! The versions of the library and of Unicode's data, as numbers.
ghost use Rattle.std.specs.Prelude.{◌≡◌, ◌<◌, pos};
ghost use Rattle.bidi_c.specs.Versions.{version_number};
ghost use Rattle.bidi_unicode.specs.declared.version.TheConstants.{UNICODE_VERSION};
ghost use Rattle.unicode_bidi.specs.declared.version.TheConstants.{VERSION};

use bidi_unicode::UNICODE_VERSION;
use unicode_bidi::VERSION;

/// Returns a version as a number: 10,000 times the major number, plus 100 times the minor number, plus the patch
/// number.
fn version_number(version: (u64, u64, u64)) -> i64
    requires major { version.0 < 10000 }
    requires minor { version.1 < 100 }
    requires patch { version.2 < 100 }
    ensures { result ≡ pos (version_number version) }
{
    (version.0 * 10_000 + version.1 * 100 + version.2) as i64
}

/// Returns the version of the library.
pub(crate) fn library_version() -> i64
    ensures { result ≡ pos (version_number VERSION) }
{
    version_number(VERSION)
}

/// Returns the version of Unicode's data.
pub(crate) fn data_version() -> i64
    ensures { result ≡ pos (version_number UNICODE_VERSION) }
{
    version_number(UNICODE_VERSION)
}
