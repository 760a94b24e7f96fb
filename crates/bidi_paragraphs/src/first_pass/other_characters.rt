//! Characters from the first one that is not ASCII on, read sixteen at a time, by index, or by the
//! iterator.
ghost use Rattle.std.specs.Prelude.{◌≡◌, ℕ, ◌+◌, ◌-◌, ◌<◌, ◌≤◌, Bool, true, false, length, get_or, take, MatchOption, IsTrue, None};
ghost use Rattle.bidi_base.specs.declared.char_data.BidiClass.{BidiClass};
ghost use Rattle.bidi_base.specs.Indexes.{class_at};
ghost use Rattle.bidi_base.specs.Texts.{is_boundary as is_boundary_of, text_len};
ghost use Rattle.bidi_paragraphs.specs.ClassSet.{has};
ghost use Rattle.bidi_paragraphs.specs.FirstPass.{HasEachChange, IsSkimmed, IsStop};
ghost use Rattle.bidi_paragraphs.specs.InText.{ahead, CanRead, CanSeek, IsReadOn, HasReadSome};
ghost use Rattle.bidi_paragraphs.specs.declared.first_pass.unit_classes.TheConstants.{AT_ONCE};
ghost use Rattle.bidi_paragraphs.specs.declared.paragraph_flags.ParagraphFlags.{ParagraphFlags};
ghost use Rattle.bidi_paragraphs.specs.declared.first_pass.other_characters.TheConstants.{LOW_BLOCK, LOW_LIMIT};

use super::progress::Progress;
use super::stop::Stop;
use super::unit_classes::{AT_ONCE, write, write_at_once};
use crate::class_set::ClassSet;
use bidi_base::char_data::BidiClass;
use bidi_base::data_source::BidiDataSource;
use bidi_text::text::TextSource;

// How many characters below U+0800 are read at once.
const LOW_BLOCK: usize = 16;

// The first code above those characters.
const LOW_LIMIT: u16 = 0x800;

// Returns the character below U+0800 with this code. The remainder shows the compiler that the code is valid, so that
// it adds no test.
fn char_of_low(code: u16) -> char
    requires { code < LOW_LIMIT }
    ensures { result ≡ code }
{
    match char::from_u32(u32::from(code % LOW_LIMIT)) {
        Some(c) => c,
        None => unreachable!(),
    }
}

// Writes the classes of sixteen characters below U+0800 from an index on, up to the first one with a class in `sought`.
// Returns how many come before that one, or sixteen if there is none.
fn write_low_block<D: BidiDataSource>(
    data_source: &D,
    block: [u16; LOW_BLOCK],
    classes: &mut [BidiClass],
    start: usize,
    sought: ClassSet,
) -> usize
    requires room { start + LOW_BLOCK ≤ length classes.old }
    requires low { (k : ℕ) → k < LOW_BLOCK → get_or block k 0 < LOW_LIMIT }
    ensures outside { take start classes.new ≡ take start classes.old }
    ensures written { (k : ℕ) → k < LOW_BLOCK → k ≤ result
        → class_at classes.new (start + k) ≡ (D.source data_source.now).class_of (get_or block k 0) }
    ensures within { result ≤ LOW_BLOCK }
    ensures idle { (k : ℕ) → k < result → has sought (class_at classes.new (start + k)) ≡ false }
    ensures stops { result < LOW_BLOCK → has sought (class_at classes.new (start + result)) ≡ true }
{
    for i in 0..LOW_BLOCK {
        let class = data_source.bidi_class(char_of_low(block[i]));
        classes[start + i] = class;
        if sought.has(class) {
            return i;
        }
    }
    LOW_BLOCK
}

// How many code units are read before the next test for ASCII.
const BLOCK: usize = 256;

// Returns the end of the block of characters that begins at an index.
fn block_end<T: TextSource>(text: T, from: usize) -> usize
    requires { from ≤ text_len (T.text text) }
    ensures begins { from ≤ result }
    ensures goes_on { from < text_len (T.text text) → from < result }
    ensures boundary { IsTrue (is_boundary_of (T.text text) result) }
{
    let len = text.len();
    if len - from <= BLOCK {
        return len;
    }
    let mut end = from + BLOCK;
    while !text.is_boundary(end) {
        end += 1;
    }
    end
}

// Writes the classes of a text's characters, up to the first one with a class in `sought`. Returns that one.
#[inline(never)]
fn read_to_sought<D: BidiDataSource, T: TextSource>(
    data_source: &D,
    block: T,
    classes: &mut [BidiClass],
    sought: ClassSet,
) -> Option<Stop>
    requires { text_len (T.text block) ≤ length classes.old }
    ensures { (flags : ParagraphFlags) → HasEachChange sought flags → MatchOption result
        (IsSkimmed (D.source data_source.now) T.encoding.len_of (has sought) (T.text block).chars 0
        (text_len (T.text block)) classes.old classes.new flags flags)
        (λ stop. IsStop (D.source data_source.now) T.encoding.len_of (has sought) (T.text block).chars 0 stop classes.old classes.new
        flags flags) }
{
    for (start, c) in block.char_indices() {
        let class = data_source.bidi_class(c);
        write::<T>(classes, start, c, class);
        if sought.has(class) {
            let len = T::char_len(c);
            return Some(Stop {
                start,
                c,
                len,
                class,
            });
        }
    }
    None
}

// Writes the classes of the characters of the next block, up to the first one with a class in `sought`. Returns that
// one. If there is none, the index moves to the block's end.
fn read_block<D: BidiDataSource, T: TextSource>(
    data_source: &D,
    text: T,
    classes: &mut [BidiClass],
    progress: &mut Progress,
    sought: ClassSet,
) -> Option<Stop>
    requires { CanSeek (T.text text) sought progress.old classes.old }
    ensures { HasReadSome (T.text text) (D.source data_source.now) (has sought) progress.old result
        progress.new classes.old classes.new }
{
    let start = progress.at;
    let end = block_end(text, start);
    let block = text.subrange(start..end);
    if let Some(stop) = read_to_sought(data_source, block, &mut classes[start..], sought) {
        let place = start + stop.start;
        return Some(Stop {
            start: place,
            ..stop
        });
    }
    progress.at = end;
    None
}

/// Writes the class of the character that begins at an index, and returns the character.
///
/// Reads the text by index. From that index on there must be at least `AT_ONCE` code units.
pub(super) fn read_next<D: BidiDataSource, T: TextSource>(
    data_source: &D,
    text: T,
    classes: &mut [BidiClass],
    start: usize,
) -> Stop
    requires same_len { length classes.old ≡ text_len (T.text text) }
    requires begins { IsTrue (is_boundary_of (T.text text) start) }
    requires room { start + AT_ONCE ≤ length classes.old }
    ensures { (stop_classes : BidiClass → Bool) (flags : ParagraphFlags) → IsStop (D.source data_source.now) T.encoding.len_of stop_classes
        (ahead (T.text text) start) start result classes.old classes.new flags flags }
{
    let (c, len) = text.next_at(start);
    let class = data_source.bidi_class(c);
    write_at_once::<T>(classes, start, c, class);
    Stop {
        start,
        c,
        len,
        class,
    }
}

// Writes the classes of the characters that begin before a limit, up to the first one with a class in `sought`. Reads
// the text by index.
//
// From each index before the limit on there must be at least `AT_ONCE` code units. Returns the character with a class
// in `sought`. If there is none, the index moves to the first character that begins at or after the limit.
#[inline(never)]
fn read_in_place<D: BidiDataSource, T: TextSource>(
    data_source: &D,
    text: T,
    classes: &mut [BidiClass],
    progress: &mut Progress,
    limit: usize,
    sought: ClassSet,
) -> Option<Stop>
    requires seek { CanSeek (T.text text) sought progress.old classes.old }
    requires room { limit + (AT_ONCE - 1) ≤ length classes.old }
    ensures stop { IsReadOn (T.text text) (D.source data_source.now) (has sought) progress.old
        result progress.new classes.old classes.new }
    ensures passed { result ≡ None → limit ≤ progress.new.at }
{
    let mut start = progress.at;
    while start < limit {
        let (c, len) = text.next_at(start);
        let class = data_source.bidi_class(c);
        write_at_once::<T>(classes, start, c, class);
        if sought.has(class) {
            return Some(Stop {
                start,
                c,
                len,
                class,
            });
        }
        start += len;
    }
    progress.at = start;
    None
}

// Writes the classes of consecutive characters below U+0800, each one code unit long, sixteen at a time, up to the
// first one with a class in `sought`. Returns that one. If there is none, the index moves to where the text returns no
// block of sixteen, or by `BLOCK` code units.
fn read_low_blocks<D: BidiDataSource, T: TextSource>(
    data_source: &D,
    text: T,
    classes: &mut [BidiClass],
    progress: &mut Progress,
    sought: ClassSet,
) -> Option<Stop>
    requires { CanSeek (T.text text) sought progress.old classes.old }
    ensures stop { IsReadOn (T.text text) (D.source data_source.now) (has sought) progress.old
        result progress.new classes.old classes.new }
{
    let mut start = progress.at;
    let limit = start.saturating_add(BLOCK);
    while start < limit {
        let Some(block) = text.low_block_at(start) else {
            break;
        };
        let idle = write_low_block(data_source, block, classes, start, sought);
        start += idle;
        if idle < LOW_BLOCK {
            let c = char_of_low(block[idle]);
            let len = 1;
            let class = classes[start];
            return Some(Stop {
                start,
                c,
                len,
                class,
            });
        }
    }
    progress.at = start;
    None
}

/// Writes the classes of some characters, up to one with a class that is in `stop_classes` or would change the flags.
///
/// Returns that one. If there is none, the index moves past them. The characters are read sixteen at a time as long as
/// the text returns such blocks, and then by index. If the text does not set `READS_IN_PLACE`, or fewer than `AT_ONCE`
/// code units are left, they are read by the iterator.
pub(super) fn read_on<D: BidiDataSource, T: TextSource>(
    data_source: &D,
    text: T,
    classes: &mut [BidiClass],
    progress: &mut Progress,
    stop_classes: ClassSet,
) -> Option<Stop>
    requires { CanRead (T.text text) progress.old.at classes.old }
    ensures { HasReadSome (T.text text) (D.source data_source.now) (has stop_classes) progress.old result
        progress.new classes.old classes.new }
{
    let end = progress.at.saturating_add(BLOCK);
    let sought = progress.flags.sought_with(stop_classes);
    if let Some(stop) = read_low_blocks(data_source, text, classes, progress, sought) {
        return Some(stop);
    }
    let sought = progress.flags.sought_with(stop_classes);
    let left = classes.len() - progress.at;
    if T::READS_IN_PLACE && left >= AT_ONCE {
        let limit = end.min(classes.len() - (AT_ONCE - 1));
        read_in_place(data_source, text, classes, progress, limit, sought)
    } else {
        read_block(data_source, text, classes, progress, sought)
    }
}
