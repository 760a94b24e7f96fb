//! Explicit levels and overrides over a list (X1 to X8).

ghost use Rattle.std.specs.Prelude.{◌≡◌, ◌≤◌, ◌||◌, if◌then◌else◌, [], length, reverse, unwrap_or, IfOk};
ghost use Rattle.std.specs.Result.{OkIff};
ghost use Rattle.bidi_base.specs.Classes.{is_paragraph_separator, is_removed};
ghost use Rattle.bidi_base.specs.Explicit.{next_level, override_of, status_inside, explicit_levels, explicit_classes};
ghost use Rattle.bidi_base.specs.Openers.{outside_isolate, left_open, then_open};

use bidi_base::char_data::{BidiClass, is_rtl};
use bidi_base::classes::{is_embedding_initiator, is_isolate_initiator, is_removed};
use bidi_base::level::{Error, Level};
use std::alloc::{AllocError, Global};
use std::marker::Model;

/// The result of X1 to X8 for a paragraph: one level and one class for each character.
#[derive(Debug, Drop)]
pub struct Explicit {
    levels: Vec<Level>,
    classes: Vec<BidiClass>,
}

impl Model for Explicit {
    ghost use Rattle.bidi_base.specs.Explicit.{ExplicitAnswer};

    ghost Value = { ExplicitAnswer };

    ghost view = { λ e. record { levels = e.levels.items; classes = e.classes.items } };
}

impl Explicit {
    /// Returns the explicit levels.
    pub fn levels(&self) -> &[Level]
        ensures { result.now ≡ self.now.levels }
    {
        self.levels.as_slice()
    }

    /// Returns the classes under overrides. Characters that X9 removes keep their class.
    pub fn classes(&self) -> &[BidiClass]
        ensures { result.now ≡ self.now.classes }
    {
        self.classes.as_slice()
    }
}

/// The status inside open openers: a level, and the class that an override gives to characters.
#[derive(Drop)]
struct Status {
    level: Level,
    override_class: Option<BidiClass>,
}

impl Model for Status {
    ghost use Rattle.bidi_base.specs.Explicit.{Status};

    ghost Value = { Status };

    ghost view = { λ s. record { level = s.level; override = s.override_class } };
}

/// The openers that are open at a character. In clauses they are a list, innermost first.
#[derive(Drop)]
struct Openers {
    /// Their classes, outermost first.
    classes: Vec<BidiClass>,
    /// How many of them are isolate initiators.
    isolates: usize,
}

impl Model for Openers {
    ghost use Rattle.std.specs.Prelude.{◌≡◌, List, reverse, count_by};
    ghost use Rattle.bidi_base.specs.declared.char_data.BidiClass.{BidiClass};
    ghost use Rattle.bidi_base.specs.Classes.{is_isolate_initiator};

    ghost Value = { List BidiClass };

    ghost view = { λ o. reverse o.classes.items };

    ghost invariant = { λ o. o.isolates ≡ count_by is_isolate_initiator (reverse o.classes.items) };
}

/// Returns the level inside an opener, if `level` is the one around it. Returns an error exactly if it would
/// be above 125.
fn next_level(opener: BidiClass, level: Level) -> Result<Level, Error>
    ensures { OkIff result (next_level opener level ≤ 125) (next_level opener level) }
{
    if is_rtl(opener) {
        level.new_explicit_next_rtl()
    } else {
        level.new_explicit_next_ltr()
    }
}

/// Returns the class that an opener gives to characters, if it is an override.
fn override_of(opener: BidiClass) -> Option<BidiClass>
    ensures { result ≡ override_of opener }
{
    match opener {
        BidiClass::RLO => Some(BidiClass::R),
        BidiClass::LRO => Some(BidiClass::L),
        _ => None,
    }
}

/// Returns the status inside open openers, which are listed outermost first. Each sets its level, up to the
/// first one that would set a level above 125 (X1 to X5c).
fn status_inside(status: Status, openers: &[BidiClass]) -> Status
    ensures { result ≡ status_inside status openers.now }
{
    match openers {
        [] => status,
        [opener, inner @ ..] => match next_level(*opener, status.level) {
            Ok(level) => status_inside(
                Status {
                    level,
                    override_class: override_of(*opener),
                },
                inner,
            ),
            Err(_) => status,
        },
    }
}

/// Removes the innermost isolate, and everything that was opened inside it.
fn close_isolate(classes: &mut Vec<BidiClass>)
    ensures { reverse classes.new.items ≡ outside_isolate (reverse classes.old.items) }
{
    while let Some(opener) = classes.pop() {
        if is_isolate_initiator(opener) {
            break;
        }
    }
}

impl Openers {
    fn new(alloc: Global) -> Self
        ensures { result ≡ [] }
    {
        Openers {
            classes: Vec::new(alloc),
            isolates: 0,
        }
    }

    /// Closes what a character of this class closes (X6a, X7). A PDI closes the innermost isolate with all
    /// inside it. A PDF closes the innermost embedding, unless an isolate was opened inside that.
    fn close(&mut self, class: BidiClass)
        ensures { self.new ≡ left_open class self.old }
    {
        match class {
            BidiClass::PDI => {
                if self.isolates > 0 {
                    self.isolates -= 1;
                    close_isolate(&mut self.classes);
                }
            }
            BidiClass::PDF => {
                if let Some(opener) = self.classes.last()
                    && !is_isolate_initiator(*opener)
                {
                    self.classes.pop();
                }
            }
            _ => {}
        }
    }

    /// Opens what a character of this class opens.
    fn open(&mut self, class: BidiClass) -> Result<(), AllocError>
        ensures { IfOk result (λ _. self.new ≡ then_open class self.old) }
    {
        if is_isolate_initiator(class) {
            self.classes.push(class)?;
            self.isolates += 1;
        } else if is_embedding_initiator(class) {
            self.classes.push(class)?;
        }
        Ok(())
    }

    /// Returns the status inside the open openers.
    fn status(&self, para_level: Level) -> Status
        ensures { result
            ≡ status_inside (record { level = para_level; override = None }) (reverse self.now) }
    {
        status_inside(
            Status {
                level: para_level,
                override_class: None,
            },
            &self.classes,
        )
    }
}

/// Returns the level of a character: the paragraph level for a paragraph separator, otherwise `level` (X8).
fn level_of(class: BidiClass, para_level: Level, level: Level) -> Level
    ensures { result ≡ (if is_paragraph_separator class then para_level else level) }
{
    if class == BidiClass::B {
        para_level
    } else {
        level
    }
}

/// Returns the class of a character under an override (X6). Paragraph separators and characters that X9
/// removes keep theirs.
fn class_of(class: BidiClass, override_class: Option<BidiClass>) -> BidiClass
    ensures { result
        ≡ (if is_paragraph_separator class || is_removed class
        then class
        else unwrap_or override_class class) }
{
    if class == BidiClass::B || is_removed(class) {
        class
    } else {
        override_class.unwrap_or(class)
    }
}

/// Returns the explicit levels of a paragraph, and its classes under overrides (X1 to X8).
///
/// Takes the paragraph level, which must be at most 125, and the stored classes. A paragraph separator gets
/// the paragraph level and closes nothing. Characters that X9 removes get the level that is current there.
/// Returns an error only if an allocation fails.
pub fn explicit_levels(
    alloc: Global,
    para_level: Level,
    classes: &[BidiClass],
) -> Result<Explicit, AllocError>
    requires { para_level ≤ 125 }
    ensures levels { IfOk result (λ e. e.levels ≡ explicit_levels para_level classes.now) }
    ensures classes { IfOk result (λ e. e.classes ≡ explicit_classes para_level classes.now) }
    ensures same_len { IfOk result (λ e.
        (length e.levels ≡ length classes.now) × (length e.classes ≡ length classes.now)) }
{
    let mut openers = Openers::new(alloc);
    let mut levels = Vec::with_capacity(alloc, classes.len())?;
    let mut overridden = Vec::with_capacity(alloc, classes.len())?;
    for class in classes {
        openers.close(*class);
        let status = openers.status(para_level);
        levels.push(level_of(*class, para_level, status.level))?;
        overridden.push(class_of(*class, status.override_class))?;
        openers.open(*class)?;
    }
    Ok(Explicit {
        levels,
        classes: overridden,
    })
}
