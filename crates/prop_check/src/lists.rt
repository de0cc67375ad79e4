//! For each literal the list of the clauses that watch it.
use prop_core::Lit;
use std::alloc::{AllocError, Global};

/// No node.
const NONE: usize = usize::MAX;

/// One of a clause's two places in the lists.
#[derive(Clone, Copy)]
struct Node {
    /// The literal in whose list it stands.
    lit: Lit,
    /// The next one in that list.
    next: usize,
}

/// For each literal the list of the clauses that watch it, as propagation by two watched literals
/// keeps them (Moskewicz, Madigan, Zhao, Zhang and Malik, "Chaff: Engineering an Efficient SAT
/// Solver", 2001).
///
/// The clause `k` has the nodes `2 * k` and `2 * k + 1`, each of which stands in one list at most.
/// The lists are hints: no contract says which clauses they lead to, so that whoever follows them
/// looks at the clause itself.
#[derive(Drop)]
pub struct WatchLists {
    /// The first node of each list, two lists a variable.
    heads: Vec<usize>,
    nodes: Vec<Node>,
}

/// The index of a literal's list.
fn list_of(lit: Lit) -> usize {
    let at = lit.var as usize * 2;
    if lit.positive { at + 1 } else { at }
}

impl WatchLists {
    /// An empty list for each literal of the variables below `vars`, and no clauses. The one error
    /// is out of memory.
    pub fn new(alloc: Global, vars: u32) -> Result<WatchLists, AllocError> {
        let lists = vars as usize * 2;
        Ok(WatchLists {
            heads: vec![in alloc; NONE; lists]?,
            nodes: Vec::new(alloc),
        })
    }

    /// Makes room for `clauses` more clauses. After an error, which is out of memory, the lists
    /// are what they were.
    pub fn reserve(&mut self, clauses: usize) -> Result<(), AllocError> {
        self.nodes.reserve(clauses.saturating_mul(2))
    }

    /// Adds empty lists for the literals of `n` more variables. After an error, which is out of
    /// memory, the lists are what they were.
    pub fn add_vars(&mut self, n: u32) -> Result<(), AllocError> {
        let more = n as usize * 2;
        self.heads.reserve(more)?;
        for _ in 0..more {
            self.heads.push(NONE)?;
        }
        Ok(())
    }

    /// How many variables there are lists for.
    pub fn vars(&self) -> usize {
        self.heads.len() / 2
    }

    /// How many nodes there are: two for each clause.
    pub fn len(&self) -> usize {
        self.nodes.len()
    }

    /// Puts the next clause into the lists of these literals, where `reserve` made room for it. It
    /// takes no memory.
    pub fn attach(&mut self, first: Option<Lit>, second: Option<Lit>) {
        let node = self.nodes.len();
        if self.nodes.capacity() - node < 2 {
            return;
        }
        let unused = Node {
            lit: Lit::default(),
            next: NONE,
        };
        self.nodes.push_reserved(unused);
        self.nodes.push_reserved(unused);
        if let Some(lit) = first {
            self.link(node, lit);
        }
        if let Some(lit) = second {
            self.link(node + 1, lit);
        }
    }

    /// Puts a node in front of a literal's list. Where there is no such node or list, nothing
    /// changes.
    pub fn link(&mut self, node: usize, lit: Lit) {
        let list = list_of(lit);
        if list < self.heads.len() && node < self.nodes.len() {
            self.nodes[node] = Node {
                lit,
                next: self.heads[list],
            };
            self.heads[list] = node;
        }
    }

    /// Empties each list.
    pub fn empty(&mut self) {
        for head in self.heads.iter_mut() {
            *head = NONE;
        }
    }

    /// Puts a node, which stands in no list, back in front of the list in which it stood last.
    pub fn relink(&mut self, node: usize) {
        if let Some(found) = self.nodes.get(node) {
            let lit = found.lit;
            self.link(node, lit);
        }
    }

    /// Empties a literal's list, and returns its first node. The node of an empty list is one that
    /// `next` doesn't know.
    pub fn take(&mut self, lit: Lit) -> usize {
        let list = list_of(lit);
        if list >= self.heads.len() {
            return NONE;
        }
        let first = self.heads[list];
        self.heads[list] = NONE;
        first
    }

    /// The node after this one in its list, or `None` where this is no node.
    pub fn next(&self, node: usize) -> Option<usize> {
        match self.nodes.get(node) {
            Some(found) => Some(found.next),
            None => None,
        }
    }

    /// The literal in whose list the other node of a node's clause stands.
    pub fn twin(&self, node: usize) -> Lit {
        let twin = if node % 2 == 0 { node | 1 } else { node - 1 };
        match self.nodes.get(twin) {
            Some(other) => other.lit,
            None => Lit::default(),
        }
    }

    /// Puts the nodes from `node` on back into the list of `lit`.
    pub fn link_rest(&mut self, mut node: usize, lit: Lit) {
        for _ in 0..self.nodes.len() {
            let Some(next) = self.next(node) else { return };
            self.link(node, lit);
            node = next;
        }
    }
}
