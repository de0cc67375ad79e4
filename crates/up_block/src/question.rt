ghost use Rattle.std.specs.Prelude.{◌≡◌, ◌↔◌, ◌<◌, ◌≤◌, ◌∷◌, ◌++◌, [], List, length, IsTrue, IfOk, OnOk};
ghost use Rattle.fo_core.specs.declared.formula.Formula.{Formula};
ghost use Rattle.fo_core.specs.Finds.{CanSearch, HasWorld, IsLight};
ghost use Rattle.fo_core.specs.Sorted.{IsSig};
ghost use Rattle.up_block.specs.Questions.{query_for, IsFirst, IsQuestion, IsLater};
ghost use Rattle.up_diagram.specs.Cubes.{IsCube};

use fo_core::{Finder, Formula, Found, Order, Query, Seq, System, World};
use std::alloc::{AllocError, Global};
use std::mem;
use up_diagram::{Cube, Picks, claim, meets};

/// A query without its last claim, which is that a copy meets a cube: it is asked of one cube after
/// the other. A world that was found for a cube meets all other claims, so it shows a later cube to
/// have a world where its copy meets that cube too.
#[derive(Drop)]
pub struct Question {
    /// The query without that claim.
    pub query: Query,
    /// The copy that is to meet the cube.
    pub copy: u32,
    /// The worlds that were found, the latest last.
    pub worlds: Vec<World>,
}

/// Takes the last claim away.
fn drop_last(alloc: Global, claims: &mut Seq<Formula>)
    ensures { (fs : List Formula) (f : Formula) →
        claims.old ≡ fs ++ f ∷ [] → claims.new ≡ fs }
{
    let mut kept = mem::replace(claims, Seq::new(alloc)).into_vec();
    kept.pop();
    *claims = Seq::from_vec(kept);
}

impl Question {
    /// The question that this query asks of the cube that its last claim is about.
    pub fn new(alloc: Global, query: Query, copy: u32) -> Question
        ensures { IsFirst query copy result }
    {
        let mut query = query;
        drop_last(alloc, &mut query.claims);
        Question {
            query,
            copy,
            worlds: Vec::new(alloc),
        }
    }

    /// Whether the copy of a world that was found before meets the cube. It tries the latest first.
    pub fn is_shown(&self, sys: &System, cube: &Cube, picks: &mut Picks) -> bool
        requires sig { IsSig sys.now.sig }
        requires question { IsQuestion sys.now self.now }
        requires cube { IsCube sys.now.sig cube.now }
        requires room { length cube.now.sorts ≤ picks.old }
        ensures shown { IsTrue result → HasWorld sys.now.sig (query_for sys.now.sig self.now cube.now) }
        ensures room { picks.new ≡ picks.old }
    {
        let worlds = self.worlds.as_slice();
        'each: for i in (0..worlds.len()).rev() {
            if meets(&sys.sig, &worlds[i], self.copy, cube, picks) {
                return true;
            }
        }
        false
    }

    /// Asks whether some world meets the query of this cube, and keeps one that is found.
    pub fn ask<F: Finder>(
        &mut self,
        alloc: Global,
        f: &mut F,
        sys: &System,
        order: &Order,
        cube: &Cube,
    ) -> Result<bool, AllocError>
        requires question { IsQuestion sys.now self.old }
        requires cube { IsCube sys.now.sig cube.now }
        requires search { CanSearch sys.now order.now (query_for sys.now.sig self.old cube.now) }
        requires light { IsLight sys.now.sig (F.limit f.old) (query_for sys.now.sig self.old cube.now) }
        ensures limit { F.limit f.new ≡ F.limit f.old }
        ensures later { OnOk result (IsLater sys.now self.old self.new) }
        ensures answer { IfOk result (λ b. IsTrue b ↔
            HasWorld sys.now.sig (query_for sys.now.sig self.old cube.now)) }
    {
        self.query
            .claims
            .push(claim(alloc, &sys.sig, cube, self.copy)?)?;
        let found = f.find(alloc, sys, order, &self.query)?;
        drop_last(alloc, &mut self.query.claims);
        match found {
            Found::Model(w) => {
                self.worlds.push(w)?;
                Ok(true)
            }
            Found::Nothing => Ok(false),
            Found::Over(_) => unreachable!(),
        }
    }
}
