//! How many rows each call was compared with, and the differences.

use crate::fault::RowFault;
use crate::item::{ANY, items_of};
use crate::row::Row;
use std::alloc::Global;

/// How many rows each call was compared with, and a line for each result that differs.
#[derive(Drop)]
pub struct Tally {
    pub calls: Vec<(&'static str, usize)>,
    pub report: String,
    pub differing: usize,
    pub compared: usize,
    fault: Option<RowFault>,
}

// Returns whether the words are the wanted ones. The word [`ANY`] matches any word.
fn are_words(wanted: &[&str], came: &str) -> bool {
    let mut words = came.split(" ");
    if wanted.is_empty() {
        return came.is_empty();
    }
    for one in wanted {
        match words.next() {
            Some(word) if *one == ANY || *one == word => {}
            _ => return false,
        }
    }
    words.next().is_none()
}

impl Tally {
    /// Returns the tally of no rows.
    pub fn new(alloc: Global) -> Tally {
        Tally {
            calls: Vec::new(alloc),
            report: String::new(alloc),
            differing: 0,
            compared: 0,
            fault: None,
        }
    }

    /// Records why a call of the row could not be made. Only the first such fault is kept.
    pub fn refuse(&mut self, fault: RowFault) {
        if self.fault.is_none() {
            self.fault = Some(fault);
        }
    }

    fn keep(&mut self, outcome: Result<(), RowFault>) {
        if let Err(fault) = outcome {
            self.refuse(fault);
        }
    }

    /// Ends a row. Returns the first fault recorded for it, if there was one.
    pub fn end_row(&mut self) -> Result<(), RowFault> {
        match self.fault.take() {
            Some(fault) => Err(fault),
            None => Ok(()),
        }
    }

    // Counts one more comparison of a call.
    fn count(&mut self, call: &'static str) -> Result<(), RowFault> {
        self.compared = self.compared.saturating_add(1);
        for (name, rows) in self.calls.iter_mut() {
            if *name == call {
                *rows = rows.saturating_add(1);
                return Ok(());
            }
        }
        self.calls.push((call, 1))?;
        Ok(())
    }

    // Compares words with a field of a row, if the row has it.
    fn hold(
        &mut self,
        row: &Row<'_>,
        key: &str,
        call: &'static str,
        came: &str,
    ) -> Result<(), RowFault> {
        let Some(field) = row.get(key) else {
            return Ok(());
        };
        self.count(call)?;
        let alloc = *self.calls.allocator();
        let wanted = items_of(alloc, field)?;
        if are_words(wanted.as_slice(), came) {
            return Ok(());
        }
        self.differ(row, field.line, call, field.value, came)
    }

    // Reports that a call returned something else.
    fn differ(
        &mut self,
        row: &Row<'_>,
        line: usize,
        call: &'static str,
        wanted: &str,
        came: &str,
    ) -> Result<(), RowFault> {
        self.differing = self.differing.saturating_add(1);
        let name = row.name;
        writeln!(
            self.report,
            "{line}: {name}: {call}: wanted '{wanted}', came '{came}'"
        )?;
        Ok(())
    }

    /// Compares the result of a call with a field of a row, if the row has it.
    pub fn agree(
        &mut self,
        row: &Row<'_>,
        key: &str,
        call: &'static str,
        came: Result<String, RowFault>,
    ) {
        match came {
            Ok(words) => self.agree_word(row, key, call, words.as_str()),
            Err(fault) => self.refuse(fault),
        }
    }

    /// Compares words with a field of a row, if the row has it.
    pub fn agree_word(&mut self, row: &Row<'_>, key: &str, call: &'static str, came: &str) {
        let outcome = self.hold(row, key, call, came);
        self.keep(outcome);
    }

    /// Compares two results of a row that must be equal.
    pub fn same(
        &mut self,
        row: &Row<'_>,
        call: &'static str,
        wanted: Result<String, RowFault>,
        came: Result<String, RowFault>,
    ) {
        match (wanted, came) {
            (Ok(wanted), Ok(came)) => self.same_word(row, call, wanted.as_str(), came.as_str()),
            (Err(fault), _) => self.refuse(fault),
            (_, Err(fault)) => self.refuse(fault),
        }
    }

    /// Compares two results in words that must be equal.
    pub fn same_word(&mut self, row: &Row<'_>, call: &'static str, wanted: &str, came: &str) {
        let mut outcome = self.count(call);
        if outcome.is_ok() && wanted != came {
            outcome = self.differ(row, row.line, call, wanted, came);
        }
        self.keep(outcome);
    }
}
