//! The assignment: which literals are true, on which level, and why.
use prop_core::Lit;
use std::alloc::{AllocError, Global};

/// What the clause that made a literal true is.
#[derive(Clone, Copy, PartialEq, Eq)]
pub enum Reason {
    /// None did: it was decided.
    Decision,
    /// The clause at this place.
    Clause(usize),
}

#[derive(Drop)]
pub struct Trail {
    values: Vec<Option<bool>>,
    /// The value that each variable had last.
    saved: Vec<bool>,
    levels: Vec<usize>,
    reasons: Vec<Reason>,
    /// The true literals, in the order in which they became so.
    lits: Vec<Lit>,
    /// Where each level begins, which is with a decision.
    starts: Vec<usize>,
    /// How many of the literals were propagated.
    done: usize,
}

impl Trail {
    /// No variable has a value.
    pub fn new(alloc: Global, vars: usize) -> Result<Trail, AllocError> {
        Ok(Trail {
            values: vec![in alloc; None; vars]?,
            saved: vec![in alloc; false; vars]?,
            levels: vec![in alloc; 0; vars]?,
            reasons: vec![in alloc; Reason::Decision; vars]?,
            lits: Vec::with_capacity(alloc, vars)?,
            starts: Vec::with_capacity(alloc, vars)?,
            done: 0,
        })
    }

    /// Grows to that many variables, the new ones without a value.
    pub fn grow(&mut self, vars: usize) -> Result<(), AllocError> {
        self.lits.reserve(vars.saturating_sub(self.lits.len()))?;
        for _ in self.values.len()..vars {
            self.values.push(None)?;
        }
        for _ in self.saved.len()..vars {
            self.saved.push(false)?;
        }
        for _ in self.levels.len()..vars {
            self.levels.push(0)?;
        }
        for _ in self.reasons.len()..vars {
            self.reasons.push(Reason::Decision)?;
        }
        Ok(())
    }

    /// Makes room for that many levels.
    pub fn reserve_levels(&mut self, levels: usize) -> Result<(), AllocError> {
        self.starts
            .reserve(levels.saturating_sub(self.starts.len()))
    }

    /// How many decisions stand.
    pub fn level(&self) -> usize {
        self.starts.len()
    }

    /// How many literals are true.
    pub fn len(&self) -> usize {
        self.lits.len()
    }

    /// The true literal at a place.
    pub fn lit(&self, at: usize) -> Option<Lit> {
        match self.lits.get(at) {
            Some(lit) => Some(*lit),
            None => None,
        }
    }

    pub fn is_true(&self, lit: Lit) -> bool {
        match self.values.get(lit.var as usize) {
            Some(Some(value)) => *value == lit.positive,
            _ => false,
        }
    }

    pub fn is_false(&self, lit: Lit) -> bool {
        match self.values.get(lit.var as usize) {
            Some(Some(value)) => *value != lit.positive,
            _ => false,
        }
    }

    /// Whether the variable has no value.
    pub fn is_open(&self, var: usize) -> bool {
        matches!(self.values.get(var), Some(None))
    }

    /// The level on which a literal's variable got its value.
    pub fn level_of(&self, lit: Lit) -> usize {
        match self.levels.get(lit.var as usize) {
            Some(level) => *level,
            None => 0,
        }
    }

    /// Why a literal's variable got its value.
    pub fn reason_of(&self, lit: Lit) -> Reason {
        match self.reasons.get(lit.var as usize) {
            Some(reason) => *reason,
            None => Reason::Decision,
        }
    }

    /// Makes a literal true on the present level.
    pub fn assign(&mut self, lit: Lit, reason: Reason) {
        let var = lit.var as usize;
        if var < self.values.len() && self.lits.len() < self.lits.capacity() {
            self.values[var] = Some(lit.positive);
            let level = self.starts.len();
            if var < self.levels.len() {
                self.levels[var] = level;
            }
            if var < self.reasons.len() {
                self.reasons[var] = reason;
            }
            self.lits.push_reserved(lit);
        }
    }

    /// Begins a level with a literal that is assumed, where it isn't true already.
    pub fn assume(&mut self, lit: Lit) {
        if self.starts.len() >= self.starts.capacity() {
            return;
        }
        self.starts.push_reserved(self.lits.len());
        if self.is_open(lit.var as usize) {
            self.assign(lit, Reason::Decision);
        }
    }

    /// Begins a level with the variable's saved value.
    pub fn decide(&mut self, var: u32) {
        if self.starts.len() >= self.starts.capacity() {
            return;
        }
        self.starts.push_reserved(self.lits.len());
        let positive = match self.saved.get(var as usize) {
            Some(value) => *value,
            None => false,
        };
        self.assign(Lit { var, positive }, Reason::Decision);
    }

    /// Where the clause stands that made the literal at a place true on level 0.
    pub fn root_reason(&self, at: usize) -> Option<usize> {
        if at >= self.start_of(0) {
            return None;
        }
        match self.reason_of(self.lit(at)?) {
            Reason::Clause(place) => Some(place),
            Reason::Decision => None,
        }
    }

    /// The next literal to propagate.
    pub fn next(&mut self) -> Option<Lit> {
        let lit = *self.lits.get(self.done)?;
        self.done += 1;
        Some(lit)
    }

    /// Where a level begins, from 1.
    pub fn start_of(&self, level: usize) -> usize {
        match self.starts.get(level) {
            Some(start) => *start,
            None => self.lits.len(),
        }
    }

    /// Takes the last literal's value away, and answers its variable.
    pub fn undo(&mut self) -> Option<usize> {
        let lit = self.lits.pop()?;
        let var = lit.var as usize;
        if var < self.values.len() {
            self.values[var] = None;
        }
        if var < self.saved.len() {
            self.saved[var] = lit.positive;
        }
        Some(var)
    }

    /// Forgets the levels above this one, whose literals were undone.
    pub fn cut(&mut self, level: usize) {
        self.starts.truncate(level);
        self.done = self.lits.len();
    }

    /// Each variable's value, or false where it has none.
    pub fn values(&self, alloc: Global) -> Result<Vec<bool>, AllocError> {
        let mut all = Vec::with_capacity(alloc, self.values.len())?;
        for value in self.values.as_slice() {
            all.push(*value == Some(true))?;
        }
        Ok(all)
    }
}
