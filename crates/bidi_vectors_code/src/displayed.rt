//! Tests of lines that are displayed differently from how they read, and of what is displayed of them.

use crate::check::same;
use crate::source::sample;
use bidi_base::data_source::BidiDataSource;
use bidi_controls::check::Sought;
use bidi_controls::displayed::DisplayComparison;
use bidi_controls::file_search::found_lines;
use bidi_controls::finding::{Trouble, Wanted};
use std::process::Abort;
use std::test::Fail;

// All kinds of findings about a line.
const LINES: Wanted = Wanted {
    displayed_differently: true,
    letters_alone: true,
    ..Wanted::NOTHING
};

// Lines that are displayed differently from how they read: in another order (L2), mirrored (L4), and in another order
// because of a mark. Each with the index of its first control or mark.
const DIFFERING: [([char; 5], usize); 3] = [
    (['a', '\u{202E}', 'b', 'c', '\u{202C}'], 1),
    (['a', '\u{2067}', '<', '\u{2069}', 'b'], 1),
    (['\u{200F}', '1', '!', '2', ';'], 0),
];

// Lines that are displayed as they read: one has an isolate with its own direction, one has brackets that change places
// and are mirrored, and one has a mark that moves nothing.
const AS_READ: [[char; 5]; 3] = [
    ['\u{5D0}', '\u{2066}', '/', 'b', '\u{2069}'],
    ['\u{2067}', '(', 'a', ')', '\u{2069}'],
    ['a', '\u{200F}', '!', ' ', 'b'],
];

// Lines in which letters move ASCII, also with a mark in front that moves nothing. Each with the index of its first letter.
const MOVED: [([char; 5], usize); 2] = [
    (['1', '\u{5D0}', '-', '2', '\u{5D1}'], 1),
    (['\u{200E}', 'a', '\u{5D0}', '!', '2'], 2),
];

// Compares the lines with how they read. Each that differs does so from left to right.
fn check_comparison<D: BidiDataSource>(
    rt: &(impl Abort + AllocGlobal),
    source: &D,
    comparison: &mut DisplayComparison,
) -> Result<(), Fail> {
    for (line, place) in DIFFERING {
        let Some(found) = comparison.differing(rt.alloc(), source, LINES, &line)? else {
            rt.abort();
        };
        assert!(rt; matches!(found.trouble, Trouble::DisplayedDifferently));
        assert!(rt; found.place == place && found.level.number() == 0);
    }
    for line in AS_READ {
        assert!(rt;
            comparison
                .differing(rt.alloc(), source, LINES, &line)?
                .is_none()
        );
    }
    Ok(())
}

// Looks for letters that make lines display differently from how they read.
fn check_moved<D: BidiDataSource>(
    rt: &(impl Abort + AllocGlobal),
    source: &D,
    comparison: &mut DisplayComparison,
) -> Result<(), Fail> {
    for (line, place) in MOVED {
        let Some(found) = comparison.differing(rt.alloc(), source, LINES, &line)? else {
            rt.abort();
        };
        assert!(rt; matches!(found.trouble, Trouble::LettersAlone));
        assert!(rt; found.place == place && found.level.number() == 0);
        let unwanted = comparison.differing(rt.alloc(), source, Wanted::EVERYTHING, &line)?;
        assert!(rt; unwanted.is_none());
    }
    Ok(())
}

#[test]
fn lines_and_how_they_read(rt: HostRuntime) -> Result<(), Fail> {
    let source = sample()?;
    let mut comparison = DisplayComparison::new(rt.alloc());
    check_comparison(&rt, &source, &mut comparison)?;
    check_moved(&rt, &source, &mut comparison)
}

// Checks what is kept of one line: `i`, then `a(b` in an override, then `!`.
fn check_kept(
    rt: &(impl Abort + AllocGlobal),
    displays: bool,
    wanted: &[char],
) -> Result<(), Fail> {
    let sought = Sought {
        wanted: Wanted::MISLEADING,
        displays,
    };
    let bytes = "i\u{202E}a(b\u{202C}!\n".as_bytes();
    let searched = found_lines(rt.alloc(), sought, bytes)?;
    let [line] = searched.lines.as_slice() else {
        rt.abort();
    };
    assert!(rt; line.findings.as_slice().len() == 1);
    match line.displayed.as_slice() {
        [] => assert!(rt; wanted.is_empty()),
        [paragraph, ..] => {
            assert!(rt; paragraph.column == 2 && paragraph.level.number() == 0);
            assert!(rt; paragraph.moved == 1);
            same(rt, "displayed", paragraph.chars.as_slice(), wanted);
        }
    }
    Ok(())
}

#[test]
fn a_line_is_kept_as_a_device_shows_it(rt: HostRuntime) -> Result<(), Fail> {
    check_kept(&rt, true, &['i', 'b', ')', 'a', '!'])?;
    check_kept(&rt, false, &[])
}
