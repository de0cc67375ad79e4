//! The search: propagation, assumptions, decisions, restarts, and what a learnt clause does.
use crate::analysis::{Analysis, watched};
use crate::order::Order;
use crate::trail::{Reason, Trail};
use prop_check::WatchLists;
use prop_core::{Clause, Lit};
use std::alloc::{AllocError, Global};

/// Conflicts before the first restart, and how many more before each later one.
const RESTART: u64 = 100;

/// Learnt clauses that are watched before idle ones leave the watches.
const WATCHED: usize = 700;

/// How many more of them may be watched each later time.
const MORE: usize = 200;

/// What the search came to.
#[derive(Drop)]
pub enum Event {
    /// Each variable has a value, and no conflict was seen.
    Values(Vec<bool>),
    /// A clause that may follow.
    Learnt(Clause),
    /// The assumptions for which `is_needed` answers true may not be true together.
    Denied,
    /// Nothing more can be done.
    Lost,
}

/// What a look at a clause found, of which one watched literal is false.
enum Look {
    /// It is watched as before.
    Stay,
    /// It is watched at this literal instead.
    Move(Lit),
    /// Each of its literals is false.
    Conflict,
}

/// What a decision came to.
enum Step {
    /// A level began.
    Goes,
    /// Each variable has a value.
    Full,
    /// An assumption is false.
    Denied,
}

/// What the values of level 0 leave of a clause.
enum Rest {
    /// One of its literals is true.
    True,
    /// Two of its literals aren't false, and maybe more.
    Two(Lit, Lit),
    /// Only this literal isn't false.
    One(Lit),
    /// Each of its literals is false.
    False,
}

/// A clause's part in the search.
#[derive(Clone, Copy, PartialEq, Eq)]
enum Standing {
    /// It isn't watched.
    Unwatched,
    /// It was given.
    Given,
    /// It was learnt, and took part in no conflict lately.
    Idle,
    /// It was learnt, and took part in one.
    Busy,
}

#[derive(Drop)]
pub struct Search {
    trail: Trail,
    lists: WatchLists,
    /// Each clause's part, by its place.
    standings: Vec<Standing>,
    order: Order,
    analysis: Analysis,
    vars: u32,
    /// What the present question assumes, or the last one. These make the first levels, as far as
    /// they stand.
    assumed: Vec<Lit>,
    /// Whether the clauses contradict each other without a decision.
    refuted: bool,
    /// Conflicts since the last restart, and how many are let pass before the next.
    conflicts: u64,
    limit: u64,
    /// How many learnt clauses are watched, how many of them there may be, and how many more than
    /// are left when idle ones leave the watches.
    watched: usize,
    most_watched: usize,
    step: usize,
}

/// What the values of level 0 leave of this clause.
fn rest_of(clause: &[Lit], trail: &Trail) -> Rest {
    let mut first: Option<Lit> = None;
    let mut second: Option<Lit> = None;
    for lit in clause {
        if trail.is_true(*lit) {
            return Rest::True;
        }
        if !trail.is_false(*lit) {
            match first {
                None => first = Some(*lit),
                Some(other) => {
                    if other != *lit && second.is_none() {
                        second = Some(*lit);
                    }
                }
            }
        }
    }
    match (first, second) {
        (Some(one), Some(other)) => Rest::Two(one, other),
        (Some(only), None) => Rest::One(only),
        _ => Rest::False,
    }
}

/// Two literals of the clause that aren't false.
fn two_open(clause: &[Lit], trail: &Trail) -> Option<(Lit, Lit)> {
    let mut first: Option<Lit> = None;
    for lit in clause {
        if !trail.is_false(*lit) {
            match first {
                None => first = Some(*lit),
                Some(other) => {
                    if other != *lit {
                        return Some((other, *lit));
                    }
                }
            }
        }
    }
    None
}

/// The greatest level on which a literal of the clause became false.
fn last_denied(clause: &[Lit], trail: &Trail) -> usize {
    let mut level = 0;
    for lit in clause {
        if trail.is_false(*lit) {
            level = level.max(trail.level_of(*lit));
        }
    }
    level
}

/// How many assumptions the two questions begin with alike.
fn count_shared(one: &[Lit], other: &[Lit]) -> usize {
    let mut count: usize = 0;
    for lit in one {
        match other.get(count) {
            Some(same) if *same == *lit => count = count.saturating_add(1),
            _ => break,
        }
    }
    count
}

impl Search {
    /// The search over these clauses.
    pub fn new(alloc: Global, vars: u32, clauses: &[Clause]) -> Result<Search, AllocError> {
        let mut search = Search {
            trail: Trail::new(alloc, vars as usize)?,
            lists: WatchLists::new(alloc, vars)?,
            standings: Vec::with_capacity(alloc, clauses.len())?,
            order: Order::new(alloc, vars as usize)?,
            analysis: Analysis::new(alloc, vars as usize)?,
            vars,
            assumed: Vec::new(alloc),
            refuted: false,
            conflicts: 0,
            limit: RESTART,
            watched: 0,
            most_watched: WATCHED,
            step: WATCHED,
        };
        search.lists.reserve(clauses.len())?;
        for (at, clause) in clauses.iter().enumerate() {
            search.start(clause.as_slice(), at);
        }
        Ok(search)
    }

    /// Takes one of the given clauses, which gets the place `at`. No decision may stand.
    fn start(&mut self, clause: &[Lit], at: usize) {
        match rest_of(clause, &self.trail) {
            Rest::True => self.attach(None, Standing::Unwatched),
            Rest::Two(first, second) => self.attach(Some((first, second)), Standing::Given),
            Rest::One(only) => {
                self.attach(None, Standing::Unwatched);
                self.trail.assign(only, Reason::Clause(at));
            }
            Rest::False => {
                self.attach(None, Standing::Unwatched);
                self.refute(at);
            }
        }
    }

    /// The clause at a place is false without a decision.
    fn refute(&mut self, at: usize) {
        self.refuted = true;
        self.analysis.refute(at);
    }

    /// The next clause is watched at these literals, if at any.
    fn attach(&mut self, literals: Option<(Lit, Lit)>, standing: Standing) {
        if self.standings.len() < self.standings.capacity() {
            self.standings.push_reserved(standing);
        }
        match literals {
            Some((first, second)) => self.lists.attach(Some(first), Some(second)),
            None => self.lists.attach(None, None),
        }
    }

    /// Makes room for one more clause.
    pub fn reserve(&mut self) -> Result<(), AllocError> {
        self.standings.reserve(1)?;
        self.lists.reserve(1)
    }

    /// Takes one more given clause, for which there is room. Decisions are taken back, and the
    /// levels of assumptions that leave it fewer than two literals.
    pub fn give(&mut self, clause: &[Lit], at: usize) {
        let assumptions = self.assumed.len();
        self.undo_to(assumptions);
        match self.make_open(clause) {
            Some(pair) => self.attach(Some(pair), Standing::Given),
            None => {
                self.undo_to(0);
                self.start(clause, at);
            }
        }
    }

    /// Takes levels back until two literals of the clause aren't false, and answers two such, where
    /// it has more than level 0 leaves it.
    fn make_open(&mut self, clause: &[Lit]) -> Option<(Lit, Lit)> {
        for _ in 0..2 {
            if self.trail.level() == 0 {
                return None;
            }
            if let Some(pair) = two_open(clause, &self.trail) {
                return Some(pair);
            }
            let below = last_denied(clause, &self.trail).checked_sub(1)?;
            self.undo_to(below);
        }
        if self.trail.level() == 0 {
            return None;
        }
        two_open(clause, &self.trail)
    }

    /// How many variables there are.
    pub fn vars(&self) -> usize {
        self.vars as usize
    }

    /// Adds `n` variables.
    pub fn add_vars(&mut self, n: u32) -> Result<(), AllocError> {
        let vars = (self.vars as usize).saturating_add(n as usize);
        self.trail.grow(vars)?;
        self.lists.add_vars(n)?;
        self.order.grow(vars)?;
        self.analysis.grow(vars)?;
        self.vars = self.vars.saturating_add(n);
        Ok(())
    }

    /// Begins a question under these assumptions. The levels of those stay with which the last one
    /// began too.
    pub fn begin(&mut self, assumptions: &[Lit]) -> Result<(), AllocError> {
        let shared = count_shared(self.assumed.as_slice(), assumptions);
        self.undo_to(shared);
        self.conflicts = 0;
        self.limit = RESTART;
        self.assumed.clear();
        for lit in assumptions {
            self.assumed.push(*lit)?;
        }
        self.trail
            .reserve_levels(assumptions.len().saturating_add(self.vars as usize))
    }

    /// The places of the clauses from which the last clause was learnt, or from which the last
    /// answer `Denied` follows together with what holds without decisions.
    pub fn used(&self) -> &[usize] {
        self.analysis.used()
    }

    /// The places of the clauses on which the last answer `Denied` rests: those that were used, and
    /// those that make a literal true without decisions.
    pub fn roots(&self, alloc: Global) -> Result<Vec<usize>, AllocError> {
        let mut roots = self.used().to_vec(alloc)?;
        for place in 0..self.trail.len() {
            let Some(at) = self.trail.root_reason(place) else {
                break
            };
            roots.push(at)?;
        }
        Ok(roots)
    }

    /// Whether the last answer `Denied` rests on this assumption.
    pub fn is_needed(&self, lit: Lit) -> bool {
        self.analysis.is_in_core(lit)
    }

    /// Goes on until there is a conflict, or each variable has a value, the assumptions' first.
    pub fn run(
        &mut self,
        alloc: Global,
        clauses: &[Clause],
        assumptions: &[Lit],
    ) -> Result<Event, AllocError> {
        if self.refuted {
            return Ok(Event::Denied);
        }
        self.tidy(assumptions.len());
        for _ in 0..=assumptions.len().saturating_add(self.vars as usize) {
            if let Some(conflict) = self.propagate(clauses) {
                return self.learn(alloc, clauses, conflict);
            }
            match self.go_deeper(clauses, assumptions) {
                Step::Goes => {}
                Step::Full => return Ok(Event::Values(self.trail.values(alloc)?)),
                Step::Denied => return Ok(Event::Denied),
            }
        }
        Ok(Event::Lost)
    }

    /// Restarts, and lets idle clauses leave the watches, where it is time to. The levels of the
    /// assumptions stay.
    fn tidy(&mut self, assumptions: usize) {
        if self.watched >= self.most_watched {
            self.watched = self.let_go();
            self.step = self.step.saturating_add(MORE);
            self.most_watched = self.watched.saturating_add(self.step);
        }
        if self.conflicts >= self.limit {
            self.conflicts = 0;
            self.limit = self.limit.saturating_add(RESTART);
            self.undo_to(assumptions);
        }
    }

    /// Takes the learnt clauses out of the watches that took part in no conflict since the last
    /// time, and answers how many others there are.
    fn let_go(&mut self) -> usize {
        let mut left: usize = 0;
        self.lists.empty();
        for at in 0..self.standings.len() {
            let standing = self.standings[at];
            if standing == Standing::Idle {
                self.standings[at] = Standing::Unwatched;
            } else if standing != Standing::Unwatched {
                self.lists.relink(at.saturating_mul(2));
                self.lists.relink(at.saturating_mul(2).saturating_add(1));
                if standing == Standing::Busy {
                    self.standings[at] = Standing::Idle;
                    left = left.saturating_add(1);
                }
            }
        }
        left
    }

    /// What a conflict teaches. On level 0 it is that no values meet the clauses.
    fn learn(
        &mut self,
        alloc: Global,
        clauses: &[Clause],
        conflict: usize,
    ) -> Result<Event, AllocError> {
        self.conflicts = self.conflicts.saturating_add(1);
        if self.trail.level() == 0 {
            self.refute(conflict);
            return Ok(Event::Denied);
        }
        let learnt = self
            .analysis
            .learn(alloc, clauses, conflict, &self.trail, &mut self.order)?;
        for at in self.analysis.used() {
            if *at < self.standings.len() && self.standings[*at] == Standing::Idle {
                self.standings[*at] = Standing::Busy;
            }
        }
        Ok(Event::Learnt(learnt))
    }

    /// Assumes the next assumption, or decides the next variable where none is left.
    fn go_deeper(&mut self, clauses: &[Clause], assumptions: &[Lit]) -> Step {
        match assumptions.get(self.trail.level()) {
            None => {
                if self.decide() {
                    Step::Goes
                } else {
                    Step::Full
                }
            }
            Some(lit) => {
                if self.trail.is_false(*lit) {
                    self.analysis.find_core(clauses, *lit, &self.trail);
                    return Step::Denied;
                }
                self.trail.assume(*lit);
                Step::Goes
            }
        }
    }

    /// Propagates what became true, and answers a clause that is false.
    fn propagate(&mut self, clauses: &[Clause]) -> Option<usize> {
        for _ in 0..self.vars {
            let lit = self.trail.next()?;
            if let Some(conflict) = self.visit(clauses, lit.negated()) {
                return Some(conflict);
            }
        }
        None
    }

    /// Goes through the clauses that watch `falsified`, and answers one that is false.
    fn visit(&mut self, clauses: &[Clause], falsified: Lit) -> Option<usize> {
        let mut node = self.lists.take(falsified);
        for _ in 0..self.lists.len() {
            let next = self.lists.next(node)?;
            match self.look(clauses, node) {
                Look::Stay => self.lists.link(node, falsified),
                Look::Move(lit) => self.lists.link(node, lit),
                Look::Conflict => {
                    self.lists.link(node, falsified);
                    self.lists.link_rest(next, falsified);
                    return Some(node / 2);
                }
            }
            node = next;
        }
        None
    }

    /// Where the clause of `node` is watched from now on. Its last literal is made true.
    fn look(&mut self, clauses: &[Clause], node: usize) -> Look {
        let other = self.lists.twin(node);
        if self.trail.is_true(other) {
            return Look::Stay;
        }
        let Some(clause) = clauses.get(node / 2) else {
            return Look::Stay
        };
        for lit in clause.as_slice() {
            if *lit != other && !self.trail.is_false(*lit) {
                return Look::Move(*lit);
            }
        }
        if self.trail.is_false(other) {
            return Look::Conflict;
        }
        self.trail.assign(other, Reason::Clause(node / 2));
        Look::Stay
    }

    /// Decides the next variable in order, and answers whether there was one without a value.
    fn decide(&mut self) -> bool {
        for _ in 0..self.vars {
            let Some(var) = self.order.pop() else {
                return false
            };
            if self.trail.is_open(var) {
                if let Ok(var) = u32::try_from(var) {
                    self.trail.decide(var);
                    return true;
                }
            }
        }
        false
    }

    /// Takes back the decisions above a level.
    fn undo_to(&mut self, level: usize) {
        if level >= self.trail.level() {
            return;
        }
        let keep = self.trail.start_of(level);
        for _ in keep..self.trail.len() {
            if let Some(var) = self.trail.undo() {
                self.order.insert(var);
            }
        }
        self.trail.cut(level);
    }

    /// Takes the last clause, which was learnt, and goes back to where it makes a literal true.
    pub fn take(&mut self, clauses: &[Clause]) {
        let Some(at) = clauses.len().checked_sub(1) else {
            return
        };
        self.watched = self.watched.saturating_add(1);
        let (asserted, second) = watched(clauses[at].as_slice(), &self.trail);
        match second {
            Some(lit) => {
                let level = self.trail.level_of(lit);
                self.undo_to(level);
                self.attach(Some((asserted, lit)), Standing::Busy);
            }
            None => {
                self.undo_to(0);
                self.attach(None, Standing::Unwatched);
            }
        }
        if self.trail.is_open(asserted.var as usize) {
            self.trail.assign(asserted, Reason::Clause(at));
        }
    }
}
