//! The open isolates while level runs are linked (BD13).

ghost use Rattle.std.specs.Prelude.{◌≡◌, [], OnOk};
ghost use Rattle.bidi_base.specs.SequencePass.{waiting_for};
ghost use Rattle.bidi_explicit.specs.Waiting.{open_isolates};

use bidi_base::char_data::BidiClass;
use std::alloc::{AllocError, Global};
use std::marker::Model;

/// Open isolates directly inside one another, with PDIs that continue the same run, or none.
#[derive(Clone, Copy, Debug)]
pub struct Alike {
    /// The run that the PDI of each continues, if one does.
    wait: Option<usize>,
    /// The number of isolates.
    times: usize,
}

/// For each open isolate, the run that its PDI continues, outermost first.
///
/// There is none if the level run continues after the initiator, as it does at the deepest level. Such isolates are
/// counted, and not stored one by one. So deeply nested isolates take no more memory than those that raise a level.
#[derive(Drop)]
pub struct Waiting {
    rows: Vec<Alike>,
}

impl Model for Waiting {
    ghost use Rattle.std.specs.Prelude.{ℕ, ◌<◌, List, Option, All};
    ghost use Rattle.bidi_explicit.specs.Waiting.{open_isolates};

    ghost Value = { List (Option ℕ) };

    ghost view = { λ w. open_isolates w.rows.items };

    ghost invariant = { λ w. All (λ r. 0 < r.times) w.rows.items };
}

impl Waiting {
    ghost use Rattle.std.specs.Prelude.{◌-◌, ◌∷◌, ◌++◌, length, take};
    ghost use Rattle.bidi_base.specs.Indexes.{last_or};
    ghost use Rattle.std.specs.Prelude.{Some, None, replicate};

    /// Returns a list without open isolates. Does not allocate.
    pub fn new(alloc: Global) -> Waiting
        ensures { result ≡ [] }
    {
        Waiting {
            rows: Vec::new(alloc),
        }
    }

    /// Closes all isolates.
    pub fn clear(&mut self)
        ensures { self.new ≡ [] }
    {
        self.rows.clear();
    }

    /// Opens an isolate with a PDI that continues a run. Returns an error only if an allocation fails. The list may
    /// then hold anything.
    pub fn push(&mut self, run: usize) -> Result<(), AllocError>
        ensures { OnOk result (self.new ≡ self.old ++ Some run ∷ []) }
    {
        self.rows.push(Alike {
            wait: Some(run),
            times: 1,
        })?;
        Ok(())
    }

    /// Opens this number of isolates with PDIs that continue no run. Returns an error only if an allocation fails. The
    /// list may then hold anything.
    pub fn push_unwaited(&mut self, times: usize) -> Result<(), AllocError>
        ensures { OnOk result (self.new ≡ self.old ++ replicate times None) }
    {
        if times == 0 {
            return Ok(());
        }
        if let Some(last) = self.rows.last_mut() {
            if last.wait.is_none() && times <= usize::MAX - last.times {
                last.times += times;
                return Ok(());
            }
        }
        self.rows.push(Alike { wait: None, times })?;
        Ok(())
    }

    /// Closes the innermost isolate, if one is open.
    pub fn pop(&mut self)
        ensures { self.new ≡ take (length self.old - 1) self.old }
    {
        match self.rows.last_mut() {
            Some(last) if last.times > 1 => last.times -= 1,
            _ => {
                self.rows.pop();
            }
        }
    }

    /// Returns the run that the PDI of the innermost isolate continues, if it continues one.
    fn last(&self) -> Option<usize>
        ensures { result ≡ last_or None self.now }
    {
        match self.rows.last() {
            Some(last) => last.wait,
            None => None,
        }
    }

    /// Returns the run that a character of this class continues if it begins a level run. Only a PDI does.
    pub fn waiting_for(&self, class: BidiClass) -> Option<usize>
        ensures { result ≡ waiting_for class self.now }
    {
        match class {
            BidiClass::PDI => self.last(),
            _ => None,
        }
    }
}
