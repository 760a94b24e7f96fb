//! Reads the lines of BidiTest.txt, which has texts of classes, or of BidiCharacterTest.txt, which has texts of
//! characters. The contents of a line show which file it is from.

use crate::case::{BASES, Base, Case, Text, Wanted};
use crate::counts::Counts;
use crate::fault::{Fault, Why};
use bidi_base::level::Level;
use bidi_vectors_format::class::character_of;
use std::alloc::Global;

/// Reads the cases of a file, and runs each.
#[derive(Drop)]
pub struct Reader {
    alloc: Global,
    text: Text,
    wanted: Wanted,
    has_levels: bool,
    has_order: bool,
    // The number of lines of cases since the last `@Levels`.
    group: usize,
    pub counts: Counts,
}

// Returns a level, or none for `x`.
fn level_of(word: &str, line: usize) -> Result<Option<Level>, Fault> {
    if word == "x" {
        return Ok(None);
    }
    let level = match word.parse::<u8>() {
        Ok(number) => Level::new(number).ok(),
        Err(_) => None,
    };
    match level {
        Some(level) => Ok(Some(level)),
        None => Err(Fault::Line(line, Why::Level)),
    }
}

fn read_levels(levels: &mut Vec<Option<Level>>, words: &str, line: usize) -> Result<(), Fault> {
    levels.clear();
    for word in words.split_whitespace() {
        levels.push(level_of(word, line)?)?;
    }
    Ok(())
}

fn read_order(order: &mut Vec<usize>, words: &str, line: usize) -> Result<(), Fault> {
    order.clear();
    for word in words.split_whitespace() {
        match word.parse::<usize>() {
            Ok(place) => order.push(place)?,
            Err(_) => return Err(Fault::Line(line, Why::Place)),
        }
    }
    Ok(())
}

// Reads a text of classes. Each class becomes a character that has it.
fn read_classes(text: &mut Text, words: &str, line: usize) -> Result<(), Fault> {
    text.clear();
    for word in words.split_whitespace() {
        match character_of(word, line) {
            Ok(c) => text.push(c)?,
            Err(_) => return Err(Fault::Line(line, Why::Class)),
        }
    }
    Ok(())
}

fn read_chars(text: &mut Text, words: &str, line: usize) -> Result<(), Fault> {
    text.clear();
    for word in words.split_whitespace() {
        let c = match u32::from_str_radix(word, 16) {
            Ok(code) => char::from_u32(code),
            Err(_) => None,
        };
        match c {
            Some(c) => text.push(c)?,
            None => return Err(Fault::Line(line, Why::Character)),
        }
    }
    Ok(())
}

// Returns the base levels of a line of classes, as a sum of bits.
fn bases_of(word: &str, line: usize) -> Result<u32, Fault> {
    match u32::from_str_radix(word, 16) {
        Ok(bits) if 0 < bits && bits < 8 => Ok(bits),
        _ => Err(Fault::Line(line, Why::Bases)),
    }
}

// Returns the base level of a line of characters.
fn base_of(word: &str, line: usize) -> Result<Base, Fault> {
    match word {
        "0" => Ok(Base::Ltr),
        "1" => Ok(Base::Rtl),
        "2" => Ok(Base::Auto),
        _ => Err(Fault::Line(line, Why::Bases)),
    }
}

impl Reader {
    /// Returns a reader that has read nothing.
    pub fn new(alloc: Global) -> Reader {
        Reader {
            alloc,
            text: Text::new(alloc),
            wanted: Wanted::new(alloc),
            has_levels: false,
            has_order: false,
            group: 0,
            counts: Counts::new(alloc),
        }
    }

    // Counts a line of cases. It must have as many levels as characters.
    fn count_line(&mut self, line: usize) -> Result<(), Fault> {
        self.group = self.group.saturating_add(1);
        self.counts.lines = self.counts.lines.saturating_add(1);
        if self.wanted.levels.len() != self.text.chars.len() {
            return Err(Fault::Line(line, Why::Levels));
        }
        Ok(())
    }

    fn run(&mut self, line: usize, base: Base) -> Result<(), Fault> {
        let case = Case {
            line,
            text: &self.text,
            base,
            wanted: &self.wanted,
        };
        self.counts.run(self.alloc, &case)
    }

    // Runs a line of classes, such as `L RLE R; 7`.
    fn run_classes(&mut self, line: usize, words: &str, bases: &str) -> Result<(), Fault> {
        if !self.has_levels || !self.has_order {
            return Err(Fault::Line(line, Why::NoLevels));
        }
        let bits = bases_of(bases, line)?;
        read_classes(&mut self.text, words, line)?;
        self.count_line(line)?;
        for (base, bit) in BASES.iter() {
            if bits & *bit != 0 {
                self.run(line, *base)?;
            }
        }
        Ok(())
    }

    // Reads the expected result of a line of characters: the paragraph's level, the levels and the order.
    fn read_wanted(&mut self, line: usize, words: &str) -> Result<(), Fault> {
        let fields = Fault::Line(line, Why::Fields);
        let (paragraph, rest) = words.split_once(";").ok_or(fields)?;
        let (levels, order) = rest.split_once(";").ok_or(fields)?;
        self.wanted.paragraph = level_of(paragraph.trim(), line)?;
        read_levels(&mut self.wanted.levels, levels, line)?;
        read_order(&mut self.wanted.order, order, line)
    }

    // Runs a line of characters, such as `05D0 0061;2;1;1 2;1 0`.
    fn run_chars(
        &mut self,
        line: usize,
        words: &str,
        base: &str,
        wanted: &str,
    ) -> Result<(), Fault> {
        let base = base_of(base.trim(), line)?;
        read_chars(&mut self.text, words, line)?;
        self.read_wanted(line, wanted)?;
        self.count_line(line)?;
        self.run(line, base)
    }

    fn run_case(&mut self, line: usize, words: &str) -> Result<(), Fault> {
        let Some((text, rest)) = words.split_once(";") else {
            return Err(Fault::Line(line, Why::Fields));
        };
        match rest.split_once(";") {
            Some((base, wanted)) => self.run_chars(line, text, base, wanted),
            None => self.run_classes(line, text, rest.trim()),
        }
    }

    // Reads the expected result of the cases that follow. Skips other lines that begin with `@`, as the file of classes
    // prescribes.
    fn read_group(&mut self, line: usize, words: &str) -> Result<(), Fault> {
        if let Some(levels) = words.strip_prefix("@Levels:") {
            self.has_levels = true;
            self.group = 0;
            self.wanted.paragraph = None;
            read_levels(&mut self.wanted.levels, levels, line)
        } else if let Some(order) = words.strip_prefix("@Reorder:") {
            self.has_order = true;
            read_order(&mut self.wanted.order, order, line)
        } else {
            Ok(())
        }
    }

    // Compares the number of lines that a file states with the number that was read.
    fn check_count(&self, line: usize, words: &str) -> Result<(), Fault> {
        let (reported, read) = match words.strip_prefix("#Total Count:") {
            Some(count) => (count, self.counts.lines),
            None => match words.strip_prefix("#Count:") {
                Some(count) => (count, self.group),
                None => return Ok(()),
            },
        };
        if reported.trim().parse::<usize>() == Ok(read) {
            Ok(())
        } else {
            Err(Fault::Line(line, Why::Count))
        }
    }

    fn run_line(&mut self, line: usize, words: &str) -> Result<(), Fault> {
        if words.is_empty() {
            Ok(())
        } else if words.starts_with("#") {
            self.check_count(line, words)
        } else if words.starts_with("@") {
            self.read_group(line, words)
        } else {
            self.run_case(line, words)
        }
    }

    /// Runs the cases of a file. A file without cases is a fault.
    pub fn run_file(&mut self, text: &str) -> Result<(), Fault> {
        let mut last = 0usize;
        for (index, words) in text.lines().enumerate() {
            last = index.saturating_add(1);
            match self.run_line(last, words.trim()) {
                Ok(()) => {}
                Err(Fault::Line(0, why)) => return Err(Fault::Line(last, why)),
                Err(fault) => return Err(fault),
            }
        }
        if self.counts.lines == 0 {
            return Err(Fault::Line(last, Why::NoCase));
        }
        Ok(())
    }
}
