//! The text that a command writes.
ghost use Rattle.std.specs.Prelude.{◌≡◌, ◌↔◌, false, string_bytes, IfOk, IsOk, IsErrOf};
ghost use Rattle.std.specs.Str.{IsUtf8};
ghost use Rattle.bidi_base.specs.Order.{visual_order};
ghost use Rattle.bidi_base.specs.Table.{source_of};
ghost use Rattle.bidi_show_run.specs.Commands.{reads_input};
ghost use Rattle.bidi_show_run.specs.Ends.{ReadsToEnd, ReportsNotUtf8};
ghost use Rattle.bidi_show_run.specs.Faults.{device_faults, CountsFaults};
ghost use Rattle.bidi_show_run.specs.Texts.{line_of, sample_source, shown_text, IsAnswer};
ghost use Rattle.bidi_terminal.specs.Bases.{level_of_base};
ghost use Rattle.bidi_show_run.specs.declared.fault.ShowFault.TheVariants.{Usage, NotUtf8};

use crate::command::{Command, View};
use crate::ends::ShowIn;
use crate::fault::ShowFault;
use crate::input::read_all;
use crate::number::LevelWords;
use crate::shown::show;
use bidi_base::data_source::TableBidiData;
use bidi_base::sample;
use bidi_terminal::Base;
use itoa::Buffer;
use std::alloc::{AllocError, Global};
use unicode_bidi::BidiInfo;

// Returns a line of numbers, separated by one space.
fn number_line(alloc: Global, numbers: &[usize]) -> Result<String, AllocError>
    ensures { IfOk result (λ line. string_bytes line ≡ line_of numbers.now) }
{
    let mut line = String::new(alloc);
    let mut digits = Buffer::new();
    for (place, number) in numbers.iter().enumerate() {
        if place > 0 {
            line.push(' ')?;
        }
        line.push_str(digits.format(*number))?;
    }
    line.push('\n')?;
    Ok(line)
}

// Returns the text of `map`: the visual order of the levels.
fn answer_map(alloc: Global, levels: &LevelWords<'_>) -> Result<String, AllocError>
    ensures { IfOk result (λ text. string_bytes text ≡ line_of (visual_order levels.now)) }
{
    let levels = levels.levels(alloc)?;
    let order = BidiInfo::reorder_visual(alloc, levels.as_slice())?;
    number_line(alloc, order.as_slice())
}

// Returns the sample table as a data source.
fn sample_table() -> TableBidiData<'static>
    ensures { source_of result ≡ sample_source }
{
    TableBidiData::new(&sample::RANGES, &sample::BRACKETS).unwrap()
}

// Returns the text of `show` or `lines`, given the bytes of the input.
fn answer_show(alloc: Global, base: Base, view: View, bytes: &[u8]) -> Result<String, ShowFault>
    ensures text { IfOk result (λ text. string_bytes text ≡ shown_text view sample_source (level_of_base base) bytes.now) }
    ensures usage { ¬ IsErrOf result Usage }
    ensures not_utf8 { IsErrOf result NotUtf8 ↔ ¬ (IsUtf8 bytes.now) }
    ensures valid { IsOk result → IsUtf8 bytes.now }
    ensures device { device_faults result ≡ 0 }
{
    let Ok(text) = str::from_utf8(bytes) else {
        return Err(ShowFault::NotUtf8);
    };
    Ok(show(alloc, &sample_table(), text, base.level(), view)?)
}

/// Returns the text that a command writes. `show` and `lines` read the input to its end.
pub fn answer<R: ShowIn>(
    alloc: Global,
    command: &Command<'_>,
    input: &mut R,
) -> Result<String, ShowFault>
    ensures text { IfOk result (λ text. IsAnswer command.now (R.left input.old) (R.left input.new) (string_bytes text)) }
    ensures usage { ¬ IsErrOf result Usage }
    ensures not_utf8 { ReportsNotUtf8 R.left R.ended_reads result input.old input.new }
    ensures ended { ReadsToEnd (reads_input (Some command.now)) result
        (R.ended_reads input.old) (R.ended_reads input.new) (R.left input.new) }
    ensures failed { CountsFaults R.failed_reads result input.old input.new }
    ensures unread { reads_input (Some command.now) ≡ false → input.new ≡ input.old }
{
    match command {
        Command::Map(levels) => Ok(answer_map(alloc, levels)?),
        Command::Show(base, view) => {
            let bytes = read_all(alloc, input)?;
            answer_show(alloc, *base, *view, bytes.as_slice())
        }
    }
}
