//! Isolating run sequences over a list (BD13, X10).

ghost use Rattle.std.specs.Prelude.{◌≡◌, ℕ, ◌<◌, ◌≤◌, length, map, All, IfOk, IfSome};
ghost use Rattle.bidi_base.specs.Explicit.{explicit_levels};
ghost use Rattle.bidi_base.specs.Sequences.{level_or, kept_before, next_kept, start_class, end_class, with_ends, sequences, HasExplicitLevels};
ghost use Rattle.bidi_base.specs.SequencePass.{waits_before, choice_at, with_entry, index_of, ArePlaces};

use bidi_base::char_data::BidiClass;
use bidi_base::classes::{is_isolate_initiator, is_removed};
use bidi_base::isolates::{WaitingSequences, read_class, waiting_for};
use bidi_base::level::Level;
use std::alloc::{AllocError, Global};
use std::marker::Model;

/// An isolating run sequence: the indices of its characters in ascending order, and the classes before its
/// first and after its last, each L or R. X9 removes none of the characters.
#[derive(Debug, Drop)]
pub struct PlainSequence {
    places: Vec<usize>,
    sos: BidiClass,
    eos: BidiClass,
}

impl Model for PlainSequence {
    ghost use Rattle.bidi_base.specs.Sequences.{RunSequence};

    ghost Value = { RunSequence };

    ghost view = { λ s. record { places = s.places.items; sos = s.sos; eos = s.eos } };
}

impl PlainSequence {
    /// Returns the indices of its characters.
    pub fn places(&self) -> &[usize]
        ensures { result.now ≡ self.now.places }
    {
        self.places.as_slice()
    }

    /// Returns the class before its first character.
    pub fn sos(&self) -> BidiClass
        ensures { result ≡ self.now.sos }
    {
        self.sos
    }

    /// Returns the class after its last character.
    pub fn eos(&self) -> BidiClass
        ensures { result ≡ self.now.eos }
    {
        self.eos
    }
}

/// Returns the sequence that the character at `place` continues, or `None` if it begins one. Reads the last
/// kept character before it to track what is open. `last` is the index of that character and of its
/// sequence, or `None` at the start.
fn go_on(
    waiting: &mut WaitingSequences,
    classes: &[BidiClass],
    levels: &[Level],
    last: Option<(usize, usize)>,
    place: usize,
) -> Result<Option<usize>, AllocError>
    requires same_len { length levels.now ≡ length classes.now }
    requires last { IfSome last (λ e. e.0 < length classes.now) }
    requires place { place < length classes.now }
    ensures read { IfOk result (λ _.
        waiting.new.items ≡ waits_before classes.now levels.now last place waiting.old.items) }
    ensures found { IfOk result (λ s. s ≡ choice_at classes.now levels.now last place waiting.new.items) }
{
    match last {
        Some((before, s)) if levels[before] == levels[place] => {
            read_class(waiting, classes[before], None)?;
            Ok(Some(s))
        }
        Some((before, s)) => {
            read_class(waiting, classes[before], Some(s))?;
            Ok(waiting_for(waiting, classes[place]))
        }
        None => Ok(None),
    }
}

/// Adds a character to the sequence at `s`, or begins a new one. Returns the index of the sequence.
fn put(
    alloc: Global,
    sequences: &mut Vec<Vec<usize>>,
    s: Option<usize>,
    place: usize,
) -> Result<usize, AllocError>
    requires { IfSome s (λ s. s < length sequences.old.items) }
    ensures index { IfOk result (λ r. r ≡ index_of s (map (λ v. v.items) sequences.old.items)) }
    ensures grown { IfOk result (λ _.
        map (λ v. v.items) sequences.new.items
        ≡ with_entry s place (map (λ v. v.items) sequences.old.items)) }
{
    match s {
        Some(s) => {
            sequences[s].push(place)?;
            Ok(s)
        }
        None => {
            let s = sequences.len();
            let mut places = Vec::new(alloc);
            places.push(place)?;
            sequences.push(places)?;
            Ok(s)
        }
    }
}

/// Returns the character indices of each sequence, in the order of the first characters.
fn sequence_places(
    alloc: Global,
    classes: &[BidiClass],
    levels: &[Level],
) -> Result<Vec<Vec<usize>>, AllocError>
    requires { length levels.now ≡ length classes.now }
    ensures all { IfOk result (λ v. (paragraph : ℕ) →
        map (λ places. with_ends paragraph classes.now levels.now places.items) v.items
        ≡ sequences paragraph classes.now levels.now) }
    ensures places { IfOk result (λ v. All (λ places. ArePlaces (length classes.now) places.items) v.items) }
{
    let mut sequences: Vec<Vec<usize>> = Vec::new(alloc);
    let mut waiting: WaitingSequences = Vec::new(alloc);
    let mut last: Option<(usize, usize)> = None;
    for place in 0..classes.len() {
        if !is_removed(classes[place]) {
            let s = go_on(&mut waiting, classes, levels, last, place)?;
            let came = put(alloc, &mut sequences, s, place)?;
            last = Some((place, came));
        }
    }
    Ok(sequences)
}

/// Returns the nearest kept character before an index, if there is one.
fn kept_before(classes: &[BidiClass], place: usize) -> Option<usize>
    requires { place ≤ length classes.now }
    ensures kept { result ≡ kept_before classes.now place }
    ensures within { IfSome result (λ p. p < place) }
{
    for p in (0..place).rev() {
        if !is_removed(classes[p]) {
            return Some(p);
        }
    }
    None
}

/// Returns the nearest kept character after an index, if there is one.
fn next_kept(classes: &[BidiClass], place: usize) -> Option<usize>
    requires { place < length classes.now }
    ensures kept { result ≡ next_kept classes.now place }
    ensures in_text { IfSome result (λ p. p < length classes.now) }
{
    for p in place + 1..classes.len() {
        if !is_removed(classes[p]) {
            return Some(p);
        }
    }
    None
}

/// Returns the level of a neighbor, or the paragraph level if there is none.
fn level_or(para_level: Level, levels: &[Level], neighbor: Option<usize>) -> Level
    requires { IfSome neighbor (λ p. p < length levels.now) }
    ensures { result ≡ level_or para_level levels.now neighbor }
{
    match neighbor {
        Some(p) => levels[p],
        None => para_level,
    }
}

/// Returns the class before the first character of a sequence (X10).
#[tactic(auto, unfolding(bidi_base::specs::Sequences::start_class))]
fn start_class(
    para_level: Level,
    classes: &[BidiClass],
    levels: &[Level],
    first: usize,
) -> BidiClass
    requires same_len { length levels.now ≡ length classes.now }
    requires first { first < length classes.now }
    ensures { result ≡ start_class para_level classes.now levels.now first }
{
    let before = level_or(para_level, levels, kept_before(classes, first));
    levels[first].max(before).bidi_class()
}

/// Returns the class after the last character of a sequence (X10). After an isolate initiator the paragraph
/// level counts.
#[tactic(auto, unfolding(bidi_base::specs::Sequences::end_class))]
fn end_class(para_level: Level, classes: &[BidiClass], levels: &[Level], last: usize) -> BidiClass
    requires same_len { length levels.now ≡ length classes.now }
    requires last { last < length classes.now }
    ensures { result ≡ end_class para_level classes.now levels.now last }
{
    let neighbor = if is_isolate_initiator(classes[last]) {
        None
    } else {
        next_kept(classes, last)
    };
    let after = level_or(para_level, levels, neighbor);
    levels[last].max(after).bidi_class()
}

/// Returns the sequence of the characters at these indices.
fn with_ends(
    para_level: Level,
    classes: &[BidiClass],
    levels: &[Level],
    places: Vec<usize>,
) -> PlainSequence
    requires same_len { length levels.now ≡ length classes.now }
    requires places { ArePlaces (length classes.now) places.items }
    ensures { result ≡ with_ends para_level classes.now levels.now places.items }
{
    let sos = start_class(para_level, classes, levels, places[0]);
    let eos = end_class(para_level, classes, levels, places[places.len() - 1]);
    PlainSequence { places, sos, eos }
}

/// Returns the isolating run sequences of a paragraph, in the order of their first characters (BD13, X10).
///
/// Takes the paragraph level, the stored classes and the explicit levels. Both lists must have the same
/// length. Levels of characters that X9 removes are not read. Returns an error only if an allocation fails.
pub fn sequences(
    alloc: Global,
    para_level: Level,
    classes: &[BidiClass],
    levels: &[Level],
) -> Result<Vec<PlainSequence>, AllocError>
    requires { length levels.now ≡ length classes.now }
    ensures given { IfOk result (λ v. v.items ≡ sequences para_level classes.now levels.now) }
    // Only the levels of characters that X9 keeps need be the explicit ones.
    ensures explicit { IfOk result (λ v. HasExplicitLevels para_level classes.now levels.now →
        v.items ≡ sequences para_level classes.now (explicit_levels para_level classes.now)) }
{
    let found = sequence_places(alloc, classes, levels)?;
    let mut sequences = Vec::with_capacity(alloc, found.len())?;
    for places in found {
        sequences.push(with_ends(para_level, classes, levels, places))?;
    }
    Ok(sequences)
}
