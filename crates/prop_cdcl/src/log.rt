//! From which clauses each learnt one was learnt, and where each clause stands in the check.
//!
//! All of it are hints: what is offered is checked.
use std::alloc::{AllocError, Global};

/// Once this many sources are noted, those of later clauses aren't.
const MOST_SOURCES: usize = 1 << 24;

/// For each clause, by its place, where it stands in the check, and where the clauses stand from
/// which it was learnt.
#[derive(Drop)]
pub struct Log {
    /// There is no place for a clause that wasn't taken yet.
    kept: Vec<Option<usize>>,
    /// How many clauses the check keeps.
    checked: usize,
    /// Where each clause's sources end in `sources`.
    ends: Vec<usize>,
    sources: Vec<usize>,
    /// Whether each clause was found in the present walk.
    found: Vec<bool>,
}

impl Log {
    /// The log of that many given clauses. The one error is out of memory.
    pub fn new(alloc: Global, clauses: usize) -> Result<Log, AllocError> {
        let mut kept = Vec::with_capacity(alloc, clauses)?;
        for at in 0..clauses {
            kept.push(Some(at))?;
        }
        Ok(Log {
            kept,
            checked: clauses,
            ends: vec![in alloc; 0; clauses]?,
            sources: Vec::new(alloc),
            found: vec![in alloc; false; clauses]?,
        })
    }

    /// How many notes there are of clauses from which others were learnt.
    pub fn sources(&self) -> usize {
        self.sources.len()
    }

    /// Makes room for one more clause that was learnt from `sources` others.
    pub fn reserve(&mut self, sources: usize) -> Result<(), AllocError> {
        self.kept.reserve(1)?;
        self.ends.reserve(1)?;
        self.found.reserve(1)?;
        if self.sources.len() < MOST_SOURCES {
            self.sources.reserve(sources)?;
        }
        Ok(())
    }

    /// Notes one more clause, for which there is room.
    pub fn push(&mut self, sources: &[usize]) {
        for source in sources {
            if self.sources.len() < self.sources.capacity() {
                self.sources.push_reserved(*source);
            }
        }
        if self.kept.len() < self.kept.capacity()
            && self.ends.len() < self.ends.capacity()
            && self.found.len() < self.found.capacity()
        {
            self.kept.push_reserved(None);
            self.ends.push_reserved(self.sources.len());
            self.found.push_reserved(false);
        }
    }

    /// Puts a clause on the stack, if it is still to be offered and wasn't found before.
    fn find(&mut self, stack: &mut Vec<usize>, at: usize) -> Result<(), AllocError> {
        if let (Some(None), Some(false)) = (self.kept.get(at), self.found.get(at)) {
            stack.push(at)?;
            if at < self.found.len() {
                self.found[at] = true;
            }
        }
        Ok(())
    }

    /// Finds each of these clauses.
    fn find_all(&mut self, stack: &mut Vec<usize>, places: &[usize]) -> Result<(), AllocError> {
        for at in places {
            self.find(stack, *at)?;
        }
        Ok(())
    }

    /// Where a clause's sources begin and end in `sources`.
    fn range(&self, at: usize) -> (usize, usize) {
        let start = match at.checked_sub(1) {
            Some(before) => *self.ends.get(before).unwrap_or(&0),
            None => 0,
        };
        (start, *self.ends.get(at).unwrap_or(&0))
    }

    /// Finds the clauses from which one was learnt.
    fn find_sources(&mut self, stack: &mut Vec<usize>, at: usize) -> Result<(), AllocError> {
        let (start, end) = self.range(at);
        for k in start..end {
            if let Some(source) = self.sources.get(k) {
                let source = *source;
                self.find(stack, source)?;
            }
        }
        Ok(())
    }

    /// These clauses and those from which they were learnt, and so on, without those that were
    /// offered or given. They stand in order.
    pub fn needed(&mut self, alloc: Global, roots: &[usize]) -> Result<Vec<usize>, AllocError> {
        let mut stack = Vec::new(alloc);
        let mut needed = Vec::new(alloc);
        self.find_all(&mut stack, roots)?;
        for _ in 0..self.found.len() {
            let Some(at) = stack.pop() else { break };
            needed.push(at)?;
            self.find_sources(&mut stack, at)?;
        }
        needed.sort()?;
        self.forget(needed.as_slice());
        Ok(needed)
    }

    /// These clauses are to be found anew.
    fn forget(&mut self, places: &[usize]) {
        for at in places {
            if *at < self.found.len() {
                self.found[*at] = false;
            }
        }
    }

    /// All clauses that are still to be offered, in order.
    pub fn pending(&self, alloc: Global) -> Result<Vec<usize>, AllocError> {
        let mut all = Vec::new(alloc);
        for (at, place) in self.kept.iter().enumerate() {
            if place.is_none() {
                all.push(at)?;
            }
        }
        Ok(all)
    }

    /// The check keeps the clause at this place now, after the others.
    pub fn keep(&mut self, at: usize) {
        if at < self.kept.len() {
            self.kept[at] = Some(self.checked);
        }
        self.checked = self.checked.saturating_add(1);
    }

    /// Puts where a clause stands in the check after the others, if it keeps it.
    fn find_in_check(&self, at: usize, found: &mut Vec<usize>) -> Result<(), AllocError> {
        if let Some(Some(place)) = self.kept.get(at) {
            found.push(*place)?;
        }
        Ok(())
    }

    /// Where these clauses stand in the check, the last one first, without those that it doesn't
    /// keep.
    pub fn in_check(&self, places: &[usize], found: &mut Vec<usize>) -> Result<(), AllocError> {
        found.clear();
        for at in places.iter().rev() {
            self.find_in_check(*at, found)?;
        }
        Ok(())
    }

    /// Where the clauses stand in the check from which one was learnt, those first that were used
    /// last. They come twice, since those that take literals out of the clause stand in no order.
    pub fn sources_in_check(&self, at: usize, found: &mut Vec<usize>) -> Result<(), AllocError> {
        found.clear();
        self.put_sources(at, found)?;
        self.put_sources(at, found)
    }

    fn put_sources(&self, at: usize, found: &mut Vec<usize>) -> Result<(), AllocError> {
        let (start, end) = self.range(at);
        for k in (start..end).rev() {
            if let Some(source) = self.sources.get(k) {
                self.find_in_check(*source, found)?;
            }
        }
        Ok(())
    }
}
