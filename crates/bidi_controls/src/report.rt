//! How the position of a finding is reported.
ghost use Rattle.std.specs.Prelude.{◌≡◌, ◌++◌, OnOk, string_bytes};
ghost use Rattle.bidi_controls.specs.Findings.{place_text};

use crate::finding::Finding;
use bidi_terminal::push_number;
use std::alloc::AllocError;

/// Appends the position of a finding: its file, its line and its column.
pub fn push_place(out: &mut String, name: &str, finding: &Finding) -> Result<(), AllocError>
    ensures { OnOk result (string_bytes out.new ≡ string_bytes out.old ++ place_text name.now finding.now) }
{
    out.push_str(name)?;
    out.push_str(":")?;
    push_number(out, finding.line)?;
    out.push_str(":")?;
    push_number(out, finding.column)?;
    out.push_str(": ")
}
