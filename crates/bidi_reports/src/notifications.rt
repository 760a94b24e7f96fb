//! What a document of SARIF says of its run after the results.
ghost use Rattle.std.specs.Prelude.{◌≡◌, ◌++◌, OnOk, string_bytes};
ghost use Rattle.bidi_reports.specs.Notifications.{notification, success, invocation_start, notifications_start, sarif_foot};

use bidi_terminal::json_text::push_json_string;
use bidi_terminal::uri::push_uri;
use std::alloc::{AllocError, Global};

/// Appends the notification of an input. `name` need not be UTF-8, and `message` says why the input is not searched, or is
/// not searched as it is. Returns an error if an allocation fails. Then `out` may have a part of it.
#[tactic(auto, unfolding(crate::specs::Notifications::notification))]
pub fn push_notification(
    alloc: Global,
    out: &mut String,
    name: &[u8],
    message: &str,
) -> Result<(), AllocError>
    ensures { OnOk result (string_bytes out.new ≡ string_bytes out.old ++ notification name.now message.now) }
{
    out.push_str("{\"level\":\"error\",\"message\":{\"text\":")?;
    push_json_string(alloc, out, message)?;
    out.push_str("},\"locations\":[{\"physicalLocation\":{\"artifactLocation\":{\"uri\":\"")?;
    push_uri(out, name)?;
    out.push_str("\"}}}]}")
}

// Appends whether the run was a success.
fn push_success(out: &mut String, notifications: &str) -> Result<(), AllocError>
    ensures { OnOk result (string_bytes out.new ≡ string_bytes out.old ++ success notifications.now) }
{
    out.push_str(if notifications.is_empty() {
        "true"
    } else {
        "false"
    })
}

// Appends what is between the results and whether the run was a success.
#[tactic(auto, unfolding(crate::specs::Notifications::invocation_start))]
fn push_invocation_start(out: &mut String) -> Result<(), AllocError>
    ensures { OnOk result (string_bytes out.new ≡ string_bytes out.old ++ invocation_start) }
{
    out.push_str("\n],\n\"invocations\":[{\"executionSuccessful\":")
}

// Appends what is between whether the run was a success and the notifications.
#[tactic(auto, unfolding(crate::specs::Notifications::notifications_start))]
fn push_notifications_start(out: &mut String) -> Result<(), AllocError>
    ensures { OnOk result (string_bytes out.new ≡ string_bytes out.old ++ notifications_start) }
{
    out.push_str(",\"toolExecutionNotifications\":[")
}

/// Appends what is after the results in a document of SARIF, with these notifications. The run was a success if there are
/// none. Returns an error if an allocation fails.
#[tactic(auto, unfolding(crate::specs::Notifications::sarif_foot))]
pub fn push_sarif_foot(out: &mut String, notifications: &str) -> Result<(), AllocError>
    ensures { OnOk result (string_bytes out.new ≡ string_bytes out.old ++ sarif_foot notifications.now) }
{
    push_invocation_start(out)?;
    push_success(out, notifications)?;
    push_notifications_start(out)?;
    out.push_str(notifications)?;
    out.push_str("\n]}]}]}\n")
}
