//! The report as JSON: a line for each finding, or one document of SARIF.
ghost use Rattle.std.specs.Prelude.{◌≡◌, ◌++◌, flat_map, encode_utf8, IfOk, OnOk, string_bytes};
ghost use Rattle.bidi_reports.specs.Words.{message_of};
ghost use Rattle.unicode_bidi.specs.declared.version.TheConstants.{VERSION};
ghost use Rattle.bidi_reports.specs.Json.{json_place, json_member, message_start, region_start, locations_start, description_start, help_start, help_uri_start, rule_help, rule_level, rule_subject, rule_start, rule_end, columns_start, result_columns, rules_start, results_start, sarif_start, json_control, json_kind, json_displayed, json_report, result_message, result_rule, result_end, result_region, result_place, fingerprint_start, result_fingerprint, result_start, sarif_report, rule_text, next_rule, rules_text, version_text, sarif_rules, sarif_head};

use crate::parts::{Escapes, push_part};
use crate::text::{DisplayedChars, ReportedFinding};
use crate::words::{
    character_of, code_of, help_of, help_uri_of, is_about_line, kind_of, level_of, push_message,
};
use bidi_controls::control::Control;
use bidi_controls::finding::{Finding, Trouble};
use bidi_terminal::json_text::push_json_string;
use bidi_terminal::push_number;
use bidi_terminal::uri::push_uri;
use std::alloc::{AllocError, Global};
use unicode_bidi::VERSION;

// Appends where a finding is.
fn push_json_place(
    alloc: Global,
    out: &mut String,
    name: &str,
    finding: &Finding,
) -> Result<(), AllocError>
    ensures { OnOk result (string_bytes out.new ≡ string_bytes out.old ++ json_place name.now finding.now) }
{
    out.push_str("{\"file\":")?;
    push_json_string(alloc, out, name)?;
    out.push_str(",\"line\":")?;
    push_number(out, finding.line)?;
    out.push_str(",\"column\":")?;
    push_number(out, finding.column)
}

// Appends a member of an object after others. Its value is a string without characters to escape.
#[tactic(auto, unfolding(crate::specs::Json::json_member))]
fn push_member(out: &mut String, key: &str, value: &str) -> Result<(), AllocError>
    ensures { OnOk result (string_bytes out.new ≡ string_bytes out.old ++ json_member key.now value.now) }
{
    out.push_str(",\"")?;
    out.push_str(key)?;
    out.push_str("\":\"")?;
    out.push_str(value)?;
    out.push_str("\"")
}

// Appends which control is found, if one is.
fn push_json_control(out: &mut String, control: Option<Control>) -> Result<(), AllocError>
    ensures { OnOk result (string_bytes out.new ≡ string_bytes out.old ++ json_control control) }
{
    let Some(control) = control else {
        return Ok(());
    };
    push_member(out, "control", control.short_name())?;
    push_member(out, "codePoint", code_of(control))?;
    push_member(out, "name", character_of(control))
}

// Returns what is found, in words.
fn message_of(alloc: Global, finding: &Finding) -> Result<String, AllocError>
    ensures { IfOk result (λ text. string_bytes text ≡ message_of finding.now) }
{
    let mut text = String::new(alloc);
    push_message(&mut text, finding)?;
    Ok(text)
}

// Appends what is wrong with it.
fn push_json_kind(alloc: Global, out: &mut String, finding: &Finding) -> Result<(), AllocError>
    ensures { OnOk result (string_bytes out.new ≡ string_bytes out.old ++ json_kind finding.now) }
{
    let message = message_of(alloc, finding)?;
    push_member(out, "kind", kind_of(finding.trouble))?;
    push_member(out, "message", message.as_str())
}

/// Returns characters as a text.
pub fn text_of(alloc: Global, chars: &[char]) -> Result<String, AllocError>
    ensures { IfOk result (λ text. string_bytes text ≡ flat_map encode_utf8 chars.now) }
{
    let mut text = String::new(alloc);
    for c in chars {
        text.push(*c)?;
    }
    Ok(text)
}

// Appends how the line is displayed, if the finding is about that.
fn push_json_displayed(
    alloc: Global,
    out: &mut String,
    displayed: &[char],
    finding: &Finding,
) -> Result<(), AllocError>
    ensures { OnOk result (string_bytes out.new ≡ string_bytes out.old ++ json_displayed displayed.now finding.now) }
{
    if !is_about_line(finding.trouble) {
        return Ok(());
    }
    let text = text_of(alloc, displayed)?;
    out.push_str(",\"displayed\":")?;
    push_json_string(alloc, out, text.as_str())
}

/// Appends a finding as a line of JSON. Returns an error if an allocation fails.
pub fn push_json(
    alloc: Global,
    out: &mut String,
    reported: &ReportedFinding<'_>,
) -> Result<(), AllocError>
    ensures { OnOk result (string_bytes out.new ≡ string_bytes out.old
        ++ json_report reported.now.name.now reported.now.displayed.chars.now reported.now.finding.now) }
{
    let finding = reported.finding;
    push_json_place(alloc, out, reported.name, finding)?;
    push_json_control(out, finding.control)?;
    push_json_kind(alloc, out, finding)?;
    push_json_displayed(alloc, out, reported.displayed.chars, finding)?;
    out.push_str("}\n")
}

// Returns the message of a finding in SARIF.
fn result_message(
    alloc: Global,
    displayed: DisplayedChars<'_>,
    finding: &Finding,
) -> Result<String, AllocError>
    ensures { IfOk result (λ text. string_bytes text ≡ result_message (displayed.entry.moved, displayed.entry.chars.now) finding.now) }
{
    let mut text = message_of(alloc, finding)?;
    if is_about_line(finding.trouble) {
        text.push_str("; it is displayed as: ")?;
        let escapes = Escapes::HiddenAndRightToLeft;
        push_part(&mut text, escapes, false, displayed.chars, displayed.moved)?;
    }
    Ok(text)
}

// Appends what is before the message of a result.
#[tactic(auto, unfolding(crate::specs::Json::message_start))]
fn push_message_start(out: &mut String) -> Result<(), AllocError>
    ensures { OnOk result (string_bytes out.new ≡ string_bytes out.old ++ message_start) }
{
    out.push_str(",\"message\":{\"text\":")
}

// Appends the rule of a result.
fn push_result_rule(out: &mut String, finding: &Finding) -> Result<(), AllocError>
    ensures { OnOk result (string_bytes out.new ≡ string_bytes out.old ++ result_rule finding.now) }
{
    out.push_str("{\"ruleId\":\"")?;
    out.push_str(kind_of(finding.trouble))?;
    out.push_str("\"")?;
    push_member(out, "level", level_of(finding.trouble))?;
    push_message_start(out)
}

// Appends the column after a character, if there is such a number.
#[tactic(auto, unfolding(crate::specs::Json::result_end))]
fn push_result_end(out: &mut String, column: usize) -> Result<(), AllocError>
    ensures { OnOk result (string_bytes out.new ≡ string_bytes out.old ++ result_end column) }
{
    let Some(end) = column.checked_add(1) else {
        return Ok(());
    };
    out.push_str(",\"endColumn\":")?;
    push_number(out, end)
}

// Appends what is before the line of a result.
#[tactic(auto, unfolding(crate::specs::Json::region_start))]
fn push_region_start(out: &mut String) -> Result<(), AllocError>
    ensures { OnOk result (string_bytes out.new ≡ string_bytes out.old ++ region_start) }
{
    out.push_str("\"},\"region\":{\"startLine\":")
}

// Appends what is before the columns of a result.
#[tactic(auto, unfolding(crate::specs::Json::columns_start))]
fn push_columns_start(out: &mut String) -> Result<(), AllocError>
    ensures { OnOk result (string_bytes out.new ≡ string_bytes out.old ++ columns_start) }
{
    out.push_str(",\"startColumn\":")
}

// Appends the columns of a result.
#[tactic(auto, unfolding(crate::specs::Json::result_columns))]
fn push_result_columns(out: &mut String, column: usize) -> Result<(), AllocError>
    ensures { OnOk result (string_bytes out.new ≡ string_bytes out.old ++ result_columns column) }
{
    push_columns_start(out)?;
    push_number(out, column)?;
    push_result_end(out, column)
}

// Appends the line and the columns of a result.
#[tactic(auto, unfolding(crate::specs::Json::result_region))]
fn push_result_region(out: &mut String, finding: &Finding) -> Result<(), AllocError>
    ensures { OnOk result (string_bytes out.new ≡ string_bytes out.old ++ result_region finding.now) }
{
    push_region_start(out)?;
    push_number(out, finding.line)?;
    push_result_columns(out, finding.column)?;
    out.push_str("}}}]")
}

// Appends what is before the file of a result.
#[tactic(auto, unfolding(crate::specs::Json::locations_start))]
fn push_locations_start(out: &mut String) -> Result<(), AllocError>
    ensures { OnOk result (string_bytes out.new ≡ string_bytes out.old ++ locations_start) }
{
    out.push_str("},\"locations\":[{\"physicalLocation\":{\"artifactLocation\":{\"uri\":\"")
}

// Appends where a result is.
fn push_result_place(out: &mut String, name: &str, finding: &Finding) -> Result<(), AllocError>
    ensures { OnOk result (string_bytes out.new ≡ string_bytes out.old ++ result_place name.now finding.now) }
{
    push_locations_start(out)?;
    push_uri(out, name.as_bytes())?;
    push_result_region(out, finding)
}

// Appends what is before the fingerprint of a result.
#[tactic(auto, unfolding(crate::specs::Json::fingerprint_start))]
fn push_fingerprint_start(out: &mut String) -> Result<(), AllocError>
    ensures { OnOk result (string_bytes out.new ≡ string_bytes out.old ++ fingerprint_start) }
{
    out.push_str(",\"partialFingerprints\":{\"findingInLine/v1\":\"")
}

// Appends what stays the same of a result when its line moves.
#[tactic(auto, unfolding(crate::specs::Json::result_fingerprint))]
fn push_result_fingerprint(
    out: &mut String,
    digest: &str,
    finding: &Finding,
) -> Result<(), AllocError>
    ensures { OnOk result (string_bytes out.new ≡ string_bytes out.old ++ result_fingerprint digest.now finding.now) }
{
    push_fingerprint_start(out)?;
    out.push_str(digest)?;
    out.push_str("/")?;
    out.push_str(kind_of(finding.trouble))?;
    out.push_str("/")?;
    push_number(out, finding.column)?;
    out.push_str("\"}}")
}

/// Appends what separates a result, or a notification, from those before it, if there are any.
pub fn push_result_start(out: &mut String, later: bool) -> Result<(), AllocError>
    ensures { OnOk result (string_bytes out.new ≡ string_bytes out.old ++ result_start later) }
{
    out.push_str(if later { ",\n" } else { "\n" })
}

/// Appends a finding as a result of SARIF. `later` says whether a result was written before it.
pub fn push_result(
    alloc: Global,
    out: &mut String,
    later: bool,
    reported: &ReportedFinding<'_>,
) -> Result<(), AllocError>
    ensures { OnOk result (string_bytes out.new ≡ string_bytes out.old
        ++ sarif_report later reported.now.name.now reported.now.digest.now
        (reported.now.displayed.moved, reported.now.displayed.chars.now) reported.now.finding.now) }
{
    let finding = reported.finding;
    let message = result_message(alloc, reported.displayed, finding)?;
    push_result_start(out, later)?;
    push_result_rule(out, finding)?;
    push_json_string(alloc, out, message.as_str())?;
    push_result_place(out, reported.name, finding)?;
    push_result_fingerprint(out, reported.digest, finding)
}

// Appends what is before the description of a rule.
#[tactic(auto, unfolding(crate::specs::Json::description_start))]
fn push_description_start(out: &mut String) -> Result<(), AllocError>
    ensures { OnOk result (string_bytes out.new ≡ string_bytes out.old ++ description_start) }
{
    out.push_str("\",\"shortDescription\":{\"text\":\"")
}

// Appends what the description of a rule says before the words of its kind.
fn push_rule_subject(out: &mut String, trouble: Trouble) -> Result<(), AllocError>
    ensures { OnOk result (string_bytes out.new ≡ string_bytes out.old ++ rule_subject trouble) }
{
    out.push_str(match trouble {
        Trouble::LettersAlone => "On a line, ",
        _ => "A direction control or mark ",
    })
}

// Appends what is before the help text of a rule.
#[tactic(auto, unfolding(crate::specs::Json::help_start))]
fn push_help_start(out: &mut String) -> Result<(), AllocError>
    ensures { OnOk result (string_bytes out.new ≡ string_bytes out.old ++ help_start) }
{
    out.push_str("\"},\"help\":{\"text\":\"")
}

// Appends what is before the page of a rule.
#[tactic(auto, unfolding(crate::specs::Json::help_uri_start))]
fn push_help_uri_start(out: &mut String) -> Result<(), AllocError>
    ensures { OnOk result (string_bytes out.new ≡ string_bytes out.old ++ help_uri_start) }
{
    out.push_str("\"},\"helpUri\":\"")
}

// Appends the help of a rule: a text, and the URI of a page.
#[tactic(auto, unfolding(crate::specs::Json::rule_help))]
fn push_rule_help(out: &mut String, trouble: Trouble) -> Result<(), AllocError>
    ensures { OnOk result (string_bytes out.new ≡ string_bytes out.old ++ rule_help trouble) }
{
    push_help_start(out)?;
    out.push_str(help_of(trouble))?;
    push_help_uri_start(out)?;
    out.push_str(help_uri_of(trouble))
}

// Appends what is before the level of a rule.
#[tactic(auto, unfolding(crate::specs::Json::rule_level))]
fn push_rule_level(out: &mut String) -> Result<(), AllocError>
    ensures { OnOk result (string_bytes out.new ≡ string_bytes out.old ++ rule_level) }
{
    out.push_str("\",\"defaultConfiguration\":{\"level\":\"")
}

// Appends the name and the description of a rule.
#[tactic(auto, unfolding(crate::specs::Json::rule_start))]
fn push_rule_start(out: &mut String, trouble: Trouble) -> Result<(), AllocError>
    ensures { OnOk result (string_bytes out.new ≡ string_bytes out.old ++ rule_start trouble) }
{
    out.push_str("\n{\"id\":\"")?;
    out.push_str(kind_of(trouble))?;
    push_description_start(out)?;
    push_rule_subject(out, trouble)?;
    out.push_str(trouble.text())
}

// Appends the level of a rule.
#[tactic(auto, unfolding(crate::specs::Json::rule_end))]
fn push_rule_end(out: &mut String, trouble: Trouble) -> Result<(), AllocError>
    ensures { OnOk result (string_bytes out.new ≡ string_bytes out.old ++ rule_end trouble) }
{
    push_rule_level(out)?;
    out.push_str(level_of(trouble))?;
    out.push_str("\"}}")
}

// Appends a rule of SARIF.
#[tactic(auto, unfolding(crate::specs::Json::rule_text))]
fn push_rule(out: &mut String, trouble: Trouble) -> Result<(), AllocError>
    ensures { OnOk result (string_bytes out.new ≡ string_bytes out.old ++ rule_text trouble) }
{
    push_rule_start(out, trouble)?;
    push_rule_help(out, trouble)?;
    push_rule_end(out, trouble)
}

// Appends a rule of SARIF after others.
#[tactic(auto, unfolding(crate::specs::Json::next_rule))]
fn push_next_rule(out: &mut String, trouble: Trouble) -> Result<(), AllocError>
    ensures { OnOk result (string_bytes out.new ≡ string_bytes out.old ++ next_rule trouble) }
{
    out.push_str(",")?;
    push_rule(out, trouble)
}

// Appends all rules of SARIF.
#[tactic(auto, unfolding(crate::specs::Json::rules_text))]
fn push_rules(out: &mut String) -> Result<(), AllocError>
    ensures { OnOk result (string_bytes out.new ≡ string_bytes out.old ++ rules_text) }
{
    push_rule(out, Trouble::DisplayedDifferently)?;
    push_next_rule(out, Trouble::NotClosed)?;
    push_next_rule(out, Trouble::ClosesNothing)?;
    push_next_rule(out, Trouble::Present)?;
    push_next_rule(out, Trouble::LettersAlone)
}

// Appends a version.
#[tactic(auto, unfolding(crate::specs::Json::version_text))]
fn push_version(out: &mut String, version: (u64, u64, u64)) -> Result<(), AllocError>
    ensures { OnOk result (string_bytes out.new ≡ string_bytes out.old ++ version_text version) }
{
    let (major, minor, patch) = version;
    push_number(out, major as usize)?;
    out.push_str(".")?;
    push_number(out, minor as usize)?;
    out.push_str(".")?;
    push_number(out, patch as usize)
}

// What is before the version in a document of SARIF.
const SARIF_START: &str =
    "{\"$schema\":\"https://json.schemastore.org/sarif-2.1.0.json\",\"version\":\"2.1.0\",\"runs\":[{\"columnKind\":\"unicodeCodePoints\",\n\"tool\":{\"driver\":{\"name\":\"bidi check\",\"version\":\"";

// Appends what is before the version in a document of SARIF.
#[tactic(auto, unfolding(crate::specs::Json::sarif_start))]
fn push_sarif_start(out: &mut String) -> Result<(), AllocError>
    ensures { OnOk result (string_bytes out.new ≡ string_bytes out.old ++ sarif_start) }
{
    out.push_str(SARIF_START)
}

// Appends what is before the rules in a document of SARIF.
#[tactic(auto, unfolding(crate::specs::Json::rules_start))]
fn push_rules_start(out: &mut String) -> Result<(), AllocError>
    ensures { OnOk result (string_bytes out.new ≡ string_bytes out.old ++ rules_start) }
{
    out.push_str("\",\"rules\":[")
}

// Appends what is between the rules and the results in a document of SARIF.
#[tactic(auto, unfolding(crate::specs::Json::results_start))]
fn push_results_start(out: &mut String) -> Result<(), AllocError>
    ensures { OnOk result (string_bytes out.new ≡ string_bytes out.old ++ results_start) }
{
    out.push_str("]}},\n\"results\":[")
}

// Appends the rules of a document of SARIF, and what begins its results.
#[tactic(auto, unfolding(crate::specs::Json::sarif_rules))]
fn push_sarif_rules(out: &mut String) -> Result<(), AllocError>
    ensures { OnOk result (string_bytes out.new ≡ string_bytes out.old ++ sarif_rules) }
{
    push_rules_start(out)?;
    push_rules(out)?;
    push_results_start(out)
}

/// Appends what is before the results in a document of SARIF.
#[tactic(auto, unfolding(crate::specs::Json::sarif_head))]
pub fn push_sarif_head(out: &mut String) -> Result<(), AllocError>
    ensures { OnOk result (string_bytes out.new ≡ string_bytes out.old ++ sarif_head) }
{
    push_sarif_start(out)?;
    push_version(out, VERSION)?;
    push_sarif_rules(out)
}
