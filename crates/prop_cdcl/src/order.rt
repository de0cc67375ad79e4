//! The order of decisions: variables by how often they took part in recent conflicts (Moskewicz,
//! Madigan, Zhao, Zhang and Malik, "Chaff: Engineering an Efficient SAT Solver", 2001, as an
//! ordered heap by Eén and Sörensson, "An Extensible SAT-solver", 2003).
use std::alloc::{AllocError, Global};

/// The place of a variable that isn't in the heap.
const NONE: usize = usize::MAX;

/// Above this step the scores and the step are scaled down, so that no score runs over.
const HIGH: u64 = 1 << 46;

/// A heap has fewer levels than this.
const LEVELS: usize = 64;

/// A heap of variables, of which the first has the greatest score.
#[derive(Drop)]
pub struct Order {
    heap: Vec<usize>,
    /// Where each variable stands in the heap.
    places: Vec<usize>,
    scores: Vec<u64>,
    /// What a conflict adds to the scores of its variables.
    step: u64,
}

fn get(xs: &[usize], at: usize) -> usize {
    match xs.get(at) {
        Some(x) => *x,
        None => NONE,
    }
}

impl Order {
    /// All variables below `vars`, in order.
    pub fn new(alloc: Global, vars: usize) -> Result<Order, AllocError> {
        let mut heap = Vec::with_capacity(alloc, vars)?;
        let mut places = Vec::with_capacity(alloc, vars)?;
        for var in 0..vars {
            heap.push(var)?;
            places.push(var)?;
        }
        Ok(Order {
            heap,
            places,
            scores: vec![in alloc; 0u64; vars]?,
            step: 1 << 16,
        })
    }

    /// Grows to that many variables, the new ones after the others.
    pub fn grow(&mut self, vars: usize) -> Result<(), AllocError> {
        self.heap.reserve(vars.saturating_sub(self.heap.len()))?;
        for _ in self.scores.len()..vars {
            self.scores.push(0)?;
        }
        for var in self.places.len()..vars {
            self.places.push(NONE)?;
            self.insert(var);
        }
        Ok(())
    }

    fn score(&self, var: usize) -> u64 {
        match self.scores.get(var) {
            Some(score) => *score,
            None => 0,
        }
    }

    /// Puts a variable at a place of the heap.
    fn put(&mut self, at: usize, var: usize) {
        if at < self.heap.len() {
            self.heap[at] = var;
        }
        if var < self.places.len() {
            self.places[var] = at;
        }
    }

    /// Moves the variable at a place up to where it belongs.
    fn rise(&mut self, from: usize) {
        let var = get(self.heap.as_slice(), from);
        let mut at = from;
        for _ in 0..LEVELS {
            if at == 0 {
                break;
            }
            let above = (at - 1) / 2;
            let other = get(self.heap.as_slice(), above);
            if self.score(other) >= self.score(var) {
                break;
            }
            self.put(at, other);
            at = above;
        }
        self.put(at, var);
    }

    /// The place below `at` of the greater score, if there is one.
    fn below(&self, at: usize) -> Option<usize> {
        let first = at.saturating_mul(2).saturating_add(1);
        let second = first.saturating_add(1);
        let left = self.heap.get(first)?;
        match self.heap.get(second) {
            Some(right) if self.score(*right) > self.score(*left) => Some(second),
            _ => Some(first),
        }
    }

    /// Moves the variable at the top down to where it belongs.
    fn sink(&mut self) {
        let var = get(self.heap.as_slice(), 0);
        let mut at = 0;
        for _ in 0..LEVELS {
            let Some(place) = self.below(at) else { break };
            let other = get(self.heap.as_slice(), place);
            if self.score(other) <= self.score(var) {
                break;
            }
            self.put(at, other);
            at = place;
        }
        self.put(at, var);
    }

    /// Takes the variable of the greatest score out.
    pub fn pop(&mut self) -> Option<usize> {
        let last = self.heap.pop()?;
        if self.heap.is_empty() {
            self.leave(last);
            return Some(last);
        }
        let first = self.heap[0];
        self.leave(first);
        self.put(0, last);
        self.sink();
        Some(first)
    }

    /// Says that a variable isn't in the heap.
    fn leave(&mut self, var: usize) {
        if var < self.places.len() {
            self.places[var] = NONE;
        }
    }

    /// Puts a variable back, where it isn't in the heap.
    pub fn insert(&mut self, var: usize) {
        if get(self.places.as_slice(), var) == NONE && self.heap.len() < self.heap.capacity() {
            let at = self.heap.len();
            self.heap.push_reserved(var);
            self.put(at, var);
            self.rise(at);
        }
    }

    /// A variable took part in a conflict.
    pub fn bump(&mut self, var: usize) {
        if var < self.scores.len() {
            self.scores[var] = self.scores[var].saturating_add(self.step);
        }
        let at = get(self.places.as_slice(), var);
        if at != NONE {
            self.rise(at);
        }
    }

    /// A conflict is over: later ones count more.
    pub fn age(&mut self) {
        self.step = self.step.saturating_add(self.step / 16);
        if self.step > HIGH {
            for score in self.scores.iter_mut() {
                *score >>= 30;
            }
            self.step >>= 30;
        }
    }
}
