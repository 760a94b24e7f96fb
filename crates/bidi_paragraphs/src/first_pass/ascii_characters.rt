//! ASCII characters, read one by one or sixteen at a time.
ghost use Rattle.std.specs.Prelude.{◌≡◌, ℕ, ◌+◌, ◌<◌, ◌≤◌, length, get_or, take};
ghost use Rattle.bidi_base.specs.Indexes.{class_at};
ghost use Rattle.bidi_paragraphs.specs.ClassSet.{has};
ghost use Rattle.bidi_paragraphs.specs.FirstPass.{set_of_first, IsSkimmed};
ghost use Rattle.bidi_paragraphs.specs.InText.{ahead, CanRead, CanSeek, IsReadOn};
ghost use Rattle.bidi_paragraphs.specs.declared.first_pass.ascii_characters.TheConstants.{ASCII_BLOCK};

use super::progress::Progress;
use super::stop::Stop;
use crate::class_set::ClassSet;
use bidi_base::char_data::BidiClass;
use bidi_base::data_source::BidiDataSource;
use bidi_text::text::TextSource;

// Writes the classes of consecutive ASCII characters, each one code unit long, before a limit, up to the first one with
// a class in `sought`. Returns that one. If there is none, the index moves to the first other character, or to the
// limit.
#[inline(never)]
fn skim_each<D: BidiDataSource, T: TextSource>(
    data_source: &D,
    text: T,
    classes: &mut [BidiClass],
    progress: &mut Progress,
    limit: usize,
    sought: ClassSet,
) -> Option<Stop>
    requires { CanSeek (T.text text) sought progress.old classes.old }
    ensures { IsReadOn (T.text text) (D.source data_source.now) (has sought) progress.old
        result progress.new classes.old classes.new }
{
    let mut start = progress.at;
    while start < limit {
        let Some(byte) = text.ascii_at(start) else {
            break;
        };
        let c = char::from(byte);
        let class = data_source.bidi_class(c);
        classes[start] = class;
        if sought.has(class) {
            let len = 1;
            return Some(Stop {
                start,
                c,
                len,
                class,
            });
        }
        start += 1;
    }
    progress.at = start;
    None
}

// How many ASCII characters are read at once.
const ASCII_BLOCK: usize = 16;

// How many characters are read one by one before they are read sixteen at a time. A paragraph of one line
// is mostly shorter. A block that goes past its end would be read in vain.
const ONE_BY_ONE: usize = 64;

// Writes the classes of sixteen ASCII characters from an index on. Returns the set of these classes.
fn write_block<D: BidiDataSource>(
    data_source: &D,
    block: [u8; ASCII_BLOCK],
    classes: &mut [BidiClass],
    start: usize,
) -> ClassSet
    requires { start + ASCII_BLOCK ≤ length classes.old }
    ensures outside { take start classes.new ≡ take start classes.old }
    ensures written { (k : ℕ) → k < ASCII_BLOCK
        → class_at classes.new (start + k) ≡ (D.source data_source.now).class_of (get_or block k 0) }
    ensures found { result ≡ set_of_first (D.source data_source.now) block ASCII_BLOCK }
{
    let mut found = ClassSet::NONE;
    for i in 0..ASCII_BLOCK {
        let class = data_source.bidi_class(char::from(block[i]));
        classes[start + i] = class;
        found = found.with(class);
    }
    found
}

// Writes the classes of consecutive ASCII characters, sixteen at a time, as long as no class is in `stop_classes`.
// The index moves past them, and the flags get their classes.
#[inline(never)]
fn skim_blocks<D: BidiDataSource, T: TextSource>(
    data_source: &D,
    text: T,
    classes: &mut [BidiClass],
    progress: &mut Progress,
    stop_classes: ClassSet,
)
    requires { CanRead (T.text text) progress.old.at classes.old }
    ensures read { IsSkimmed (D.source data_source.now) T.encoding.len_of (has stop_classes)
        (ahead (T.text text) progress.old.at) progress.old.at progress.new.at classes.old classes.new
        progress.old.flags progress.new.flags }
    ensures begins { progress.old.at ≤ progress.new.at }
{
    let mut start = progress.at;
    let mut sought = progress.flags.sought_with(stop_classes);
    let mut next = text.ascii_block_at(start);
    while let Some(block) = next {
        // The next block is read before this one is written. On some processors a read waits for an earlier
        // write if the last twelve bits of their addresses are equal.
        next = text.ascii_block_at(start + ASCII_BLOCK);
        let found = write_block(data_source, block, classes, start);
        if sought.intersects(found) {
            if stop_classes.intersects(found) {
                break;
            }
            progress.flags = progress.flags.with_all(found);
            sought = progress.flags.sought_with(stop_classes);
        }
        start += ASCII_BLOCK;
    }
    progress.at = start;
}

/// Writes the classes of consecutive ASCII characters, each one code unit long, up to one with a class that is in
/// `stop_classes` or would change the flags.
///
/// Returns that one. If there is none, the index moves to the first other character, or to the end. The
/// characters are read sixteen at a time only after many were read one by one.
pub(super) fn skim<D: BidiDataSource, T: TextSource>(
    data_source: &D,
    text: T,
    classes: &mut [BidiClass],
    progress: &mut Progress,
    stop_classes: ClassSet,
) -> Option<Stop>
    requires { CanRead (T.text text) progress.old.at classes.old }
    ensures { IsReadOn (T.text text) (D.source data_source.now) (has stop_classes) progress.old
        result progress.new classes.old classes.new }
{
    while progress.at < classes.len() {
        let limit = progress.at + (classes.len() - progress.at).min(ONE_BY_ONE);
        let sought = progress.flags.sought_with(stop_classes);
        if let Some(stop) = skim_each(data_source, text, classes, progress, limit, sought) {
            return Some(stop);
        }
        if progress.at < limit {
            return None;
        }
        skim_blocks(data_source, text, classes, progress, stop_classes);
    }
    None
}
