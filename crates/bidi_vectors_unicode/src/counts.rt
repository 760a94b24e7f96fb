//! The number of cases, and of failures in each form.

use crate::case::Case;
use crate::compare::{Difference, compare};
use crate::fault::Fault;
use crate::forms::{FORMS, Form, ask};
use std::alloc::Global;

/// The maximum number of failures that are printed.
const REPORTED: usize = 10;

/// How many cases passed in one form, and how many failed.
#[derive(Clone, Copy, Debug, PartialEq)]
pub struct Outcome {
    pub passed: usize,
    pub failed: usize,
}

/// The counts of a file.
#[derive(Drop)]
pub struct Counts {
    /// The number of lines with a text.
    pub lines: usize,
    /// The number of texts with a base level.
    pub cases: usize,
    /// The outcome in each form.
    pub outcomes: [Outcome; 5],
    /// The first failures, one line each.
    pub reported: Vec<String>,
}

impl Counts {
    /// Returns the counts of no cases.
    pub fn new(alloc: Global) -> Counts {
        let none = Outcome {
            passed: 0,
            failed: 0,
        };
        Counts {
            lines: 0,
            cases: 0,
            outcomes: [none; 5],
            reported: Vec::new(alloc),
        }
    }

    /// Returns whether every case passed in every form.
    pub fn all_passed(&self) -> bool {
        self.outcomes.iter().all(|outcome| outcome.failed == 0)
    }

    // Keeps a failure to print, unless there are enough.
    fn tell(
        &mut self,
        alloc: Global,
        form: Form,
        case: &Case<'_>,
        found: &Difference,
    ) -> Result<(), Fault> {
        if self.reported.len() < REPORTED {
            let (line, form, base, part) = (case.line, form.name(), case.base.name(), found.part);
            let (wanted, came) = (found.wanted.as_str(), found.came.as_str());
            self.reported.push(format!(in alloc;
                "{line}: {form}, base {base}: {part}: wanted '{wanted}', came '{came}'"
            )?)?;
        }
        Ok(())
    }

    // Runs a case in one form, and returns whether it passed.
    fn passes(&mut self, alloc: Global, form: Form, case: &Case<'_>) -> Result<bool, Fault> {
        let found = ask(alloc, form, case.text, case.base)?;
        match compare(alloc, form, case.text, &found, case.wanted)? {
            Some(found) => {
                self.tell(alloc, form, case, &found)?;
                Ok(false)
            }
            None => Ok(true),
        }
    }

    /// Runs a case in each form.
    pub fn run(&mut self, alloc: Global, case: &Case<'_>) -> Result<(), Fault> {
        self.cases = self.cases.saturating_add(1);
        for (index, form) in FORMS.iter().enumerate() {
            let passes = self.passes(alloc, *form, case)?;
            if let Some(outcome) = self.outcomes.get_mut(index) {
                if passes {
                    outcome.passed = outcome.passed.saturating_add(1);
                } else {
                    outcome.failed = outcome.failed.saturating_add(1);
                }
            }
        }
        Ok(())
    }
}
