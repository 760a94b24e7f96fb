//! The weak types of an isolating run sequence (W1 to W7), one function for each rule. Each rule passes
//! over the whole sequence before the next one begins.

ghost use Rattle.std.specs.Prelude.{◌≡◌, ◌≤◌, [], ◌∷◌, length, vec_len, IsTrue, IfOk};
ghost use Rattle.std.specs.List.{list_all, prefix_len};
ghost use Rattle.bidi_base.specs.Classes.{is_en, is_et, is_kept, is_l_or_r, is_weak_resolved};
ghost use Rattle.bidi_base.specs.Indexes.{class_at};
ghost use Rattle.bidi_base.specs.Weak.{carried, w1, w2, w3, w4, w4_rule, w5, w6, w7, weak_classes};

use bidi_base::char_data::BidiClass::{
    self, AL, AN, CS, EN, ES, ET, FSI, L, LRI, NSM, ON, PDI, R, RLI,
};
use std::alloc::{AllocError, Global};

/// Returns the classes of a sequence after W1 to W7.
///
/// `sos` must be L or R, and X9 must keep each class. Returns an error only if an allocation fails.
pub fn weak(
    alloc: Global,
    sos: BidiClass,
    classes: &[BidiClass],
) -> Result<Vec<BidiClass>, AllocError>
    requires sos { IsTrue (is_l_or_r sos) }
    requires kept { IsTrue (list_all is_kept classes.now) }
    ensures classes { IfOk result (λ v. v.items ≡ weak_classes sos classes.now) }
    ensures resolved { IfOk result (λ v. IsTrue (list_all is_weak_resolved v.items)) }
    ensures same_len { IfOk result (λ v. vec_len v ≡ length classes.now) }
{
    let mut resolved = Vec::from_slice(alloc, classes)?;
    apply_w1_to_w7(sos, resolved.as_mut_slice());
    Ok(resolved)
}

#[tactic(auto, unfolding(bidi_base::specs::Weak::weak_classes))]
fn apply_w1_to_w7(sos: BidiClass, classes: &mut [BidiClass])
    requires sos { IsTrue (is_l_or_r sos) }
    requires kept { IsTrue (list_all is_kept classes.old) }
    ensures classes { classes.new ≡ weak_classes sos classes.old }
    ensures resolved { IsTrue (list_all is_weak_resolved classes.new) }
{
    apply_w1(sos, classes);
    apply_w2(sos, classes);
    apply_w3(classes);
    apply_w4(classes);
    apply_w5(classes);
    apply_w6(classes);
    apply_w7(sos, classes);
}

/// W1: a nonspacing mark takes the class of the character before it, ON if that is an isolate
/// initiator or PDI, and sos at the start.
fn apply_w1(sos: BidiClass, classes: &mut [BidiClass])
    ensures { classes.new ≡ w1 sos classes.old }
{
    let mut previous = sos;
    for class in classes.iter_mut() {
        match *class {
            NSM => *class = mark_class(previous),
            other => previous = other,
        }
    }
}

/// Returns the class that a nonspacing mark takes from the character before it.
fn mark_class(previous: BidiClass) -> BidiClass
    ensures { result ≡ carried previous }
{
    match previous {
        LRI | RLI | FSI | PDI => ON,
        other => other,
    }
}

/// W2: a European number changes to an Arabic one if the first strong class before it, or sos, is
/// AL.
fn apply_w2(sos: BidiClass, classes: &mut [BidiClass])
    ensures { classes.new ≡ w2 sos classes.old }
{
    let mut strong = sos;
    for class in classes.iter_mut() {
        match *class {
            L | R | AL => strong = *class,
            EN => {
                if strong == AL {
                    *class = AN;
                }
            }
            _ => {}
        }
    }
}

/// W3: an Arabic letter changes to R.
fn apply_w3(classes: &mut [BidiClass])
    ensures { classes.new ≡ w3 classes.old }
{
    for class in classes.iter_mut() {
        if *class == AL {
            *class = R;
        }
    }
}

/// W4: a European separator between two European numbers changes to a European number. A common separator
/// between two numbers of one kind changes to a number of that kind. In both cases it must be a single
/// separator.
fn apply_w4(classes: &mut [BidiClass])
    ensures { classes.new ≡ w4 classes.old }
{
    for i in 1..classes.len().saturating_sub(1) {
        classes[i] = separator_class(classes[i - 1], classes[i], classes[i + 1]);
    }
}

/// Returns the class after W4 of a class between two others.
fn separator_class(before: BidiClass, class: BidiClass, after: BidiClass) -> BidiClass
    ensures { result ≡ w4_rule (before ∷ []) class (after ∷ []) }
{
    match (before, class, after) {
        (EN, ES | CS, EN) => EN,
        (AN, CS, AN) => AN,
        _ => class,
    }
}

/// W5: a sequence of European terminators next to a European number changes to European numbers.
fn apply_w5(classes: &mut [BidiClass])
    ensures { classes.new ≡ w5 classes.old }
{
    let mut after_number = false;
    let mut start = 0;
    while start < classes.len() {
        let end = start + terminators(&classes[start..]);
        let before_number = is_european_number(classes, end);
        if after_number || before_number {
            classes[start..end].fill(EN);
        }
        after_number = before_number;
        start = end + 1;
    }
}

/// Returns the number of European terminators at the start of the list.
fn terminators(classes: &[BidiClass]) -> usize
    ensures count { result ≡ prefix_len is_et classes.now }
    ensures within { result ≤ length classes.now }
{
    classes.iter().take_while(|class| **class == ET).count()
}

/// Returns whether a European number is at the index: false past the end.
fn is_european_number(classes: &[BidiClass], place: usize) -> bool
    ensures { result ≡ is_en (class_at classes.now place) }
{
    place < classes.len() && classes[place] == EN
}

/// W6: all separators and terminators that are left change to ON.
fn apply_w6(classes: &mut [BidiClass])
    ensures { classes.new ≡ w6 classes.old }
{
    for class in classes.iter_mut() {
        if let ES | ET | CS = *class {
            *class = ON;
        }
    }
}

/// W7: a European number changes to L if the first L or R before it, or sos, is L.
fn apply_w7(sos: BidiClass, classes: &mut [BidiClass])
    ensures { classes.new ≡ w7 sos classes.old }
{
    let mut strong = sos;
    for class in classes.iter_mut() {
        match *class {
            L | R => strong = *class,
            EN => {
                if strong == L {
                    *class = L;
                }
            }
            _ => {}
        }
    }
}
