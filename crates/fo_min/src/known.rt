//! Values that the world of an earlier trial shows to be had.
ghost use Rattle.std.specs.Prelude.{◌≡◌, ◌<◌, ◌≤◌, ◌++◌, ◌∷◌, [], ⊤, length, IfOk, IsTrue, MatchOption};
ghost use Rattle.fo_core.specs.Queries.{MeetsQuery};
ghost use Rattle.fo_min.specs.Known.{IsNamedWorld, HasEntry, HasEntries, IsShown, MayKnow, IsTried, AreAllLight, IsNext};
ghost use Rattle.fo_min.specs.Search.{AreEntries, sig_of, query_of, range_next, AreValuesSettled};
ghost use Rattle.fo_min.specs.Search.{AreEntriesFound};
ghost use Rattle.fo_min.specs.declared.search.Numbers.TheVariants as All_of;

use crate::naming::{arrangement, element, is_naming, named};
use crate::search::{Entries, Lesser, Numbers, extended};
use fo_core::{Finder, Seq, World};
use std::alloc::{AllocError, Global};

/// How many namings of a world are tried before it is given up.
const MOST_NAMINGS: usize = 1000;

/// A world that meets the query, and which of its elements the numbers name.
#[derive(Drop)]
pub struct Known {
    pub world: World,
    /// The elements of each sort, in the order of their names.
    pub names: Seq<Seq<u32>>,
}

/// Up to which value trials are asked for an entry.
#[derive(Drop)]
pub struct Tried {
    /// This value needs no trial: where no lesser one is had, it is.
    pub most: u32,
    /// The world that has it, where one is kept.
    pub known: Option<Known>,
}

/// The value of an entry.
#[derive(Drop)]
pub struct Next {
    pub value: u32,
    /// A world that has it, where one is kept.
    pub known: Option<Known>,
}

impl<'a> Entries<'a> {
    /// Whether the entry of this number has the value.
    fn has_entry(
        &self,
        alloc: Global,
        world: &World,
        names: &[Seq<u32>],
        k: usize,
        v: u32,
    ) -> Result<bool, AllocError>
        requires entries { AreEntries self.now }
        requires is { IsNamedWorld self.now world.now names.now }
        requires within { k < length self.now.cells.now }
        ensures { IfOk result (λ b. IsTrue b → HasEntry self.now world.now names.now k v) }
    {
        let sig = &self.search.sys.sig;
        let cell = &self.cells[k];
        let symbol = sig.symbols.at(cell.symbol as usize);
        let Some(args) = named(alloc, names, symbol.args.as_slice(), cell.args.as_slice())? else {
            return Ok(false);
        };
        let value = world.value(sig, cell.copy, cell.symbol, args.as_slice());
        if symbol.relation {
            return Ok(value == v);
        }
        match element(names, symbol.result, v) {
            Some(y) => Ok(value == y),
            None => Ok(false),
        }
    }

    /// Whether the first entries have these values.
    fn has_entries(
        &self,
        alloc: Global,
        world: &World,
        names: &[Seq<u32>],
        values: &[u32],
    ) -> Result<bool, AllocError>
        requires entries { AreEntries self.now }
        requires is { IsNamedWorld self.now world.now names.now }
        requires enough { length values.now ≤ length self.now.cells.now }
        ensures { IfOk result (λ b. IsTrue b → HasEntries self.now world.now names.now values.now) }
    {
        'each: for (k, v) in values.iter().enumerate() {
            let has = self.has_entry(alloc, world, names, k, *v)?;
            if !has {
                return Ok(false);
            }
        }
        Ok(true)
    }

    /// The value that the entry of this number has in the world, where one below `range` is found.
    fn own_value(
        &self,
        alloc: Global,
        known: &Known,
        k: usize,
        range: u32,
    ) -> Result<Option<u32>, AllocError>
        requires entries { AreEntries self.now }
        requires is { IsNamedWorld self.now known.now.world known.now.names }
        requires within { k < length self.now.cells.now }
        ensures { IfOk result (λ o. MatchOption o ⊤ (λ v.
            (v < range) × HasEntry self.now known.now.world known.now.names k v)) }
    {
        'each: for v in 0..range {
            if self.has_entry(alloc, &known.world, known.names.as_slice(), k, v)? {
                return Ok(Some(v));
            }
        }
        Ok(None)
    }

    /// Whether this is a naming of the world, which meets the query, under which the first entries
    /// have these values.
    fn is_known(
        &self,
        alloc: Global,
        world: &World,
        names: &[Seq<u32>],
        values: &[u32],
    ) -> Result<bool, AllocError>
        requires entries { AreEntries self.now }
        requires meets { MeetsQuery (sig_of self.now.search) (query_of self.now.search) world.now }
        requires enough { length values.now ≤ length self.now.cells.now }
        ensures { IfOk result (λ b. IsTrue b → IsShown self.now values.now world.now names.now) }
    {
        if !is_naming(world, self.sizes, names) {
            return Ok(false);
        }
        let has = self.has_entries(alloc, world, names, values)?;
        Ok(has)
    }

    /// Keeps a world that meets the query, where a naming is found under which its first entries
    /// have these values.
    pub fn keep(
        &self,
        alloc: Global,
        world: World,
        values: &[u32],
    ) -> Result<Option<Known>, AllocError>
        requires entries { AreEntries self.now }
        requires meets { MeetsQuery (sig_of self.now.search) (query_of self.now.search) world }
        requires enough { length values.now ≤ length self.now.cells.now }
        ensures { IfOk result (MayKnow self.now values.now) }
    {
        'each: for number in 0..MOST_NAMINGS {
            let Some(names) = arrangement(alloc, self.sizes, number)? else {
                return Ok(None);
            };
            let shown = self.is_known(alloc, &world, names.as_slice(), values)?;
            if shown {
                return Ok(Some(Known { world, names }));
            }
        }
        Ok(None)
    }

    /// Up to which value of the next entry trials are asked: below that of the world, or where
    /// there is none below the last in range.
    fn tried(
        &self,
        alloc: Global,
        values: &[u32],
        before: Option<Known>,
    ) -> Result<Tried, AllocError>
        requires entries { AreEntries self.now }
        requires more { length values.now < length self.now.cells.now }
        requires known { MayKnow self.now values.now before }
        requires some { 1 ≤ range_next self.now values.now }
        ensures { IfOk result (IsTried self.now values.now) }
    {
        let range = self.range(values);
        if let Some(known) = before {
            if let Some(most) = self.own_value(alloc, &known, values.len(), range)? {
                return Ok(Tried {
                    most,
                    known: Some(known),
                });
            }
        }
        Ok(Tried {
            most: range - 1,
            known: None,
        })
    }

    /// Looks for the next value, where all trials are light and this world is kept.
    fn next_known<F: Finder>(
        &self,
        alloc: Global,
        f: &mut F,
        values: &[u32],
        before: Option<Known>,
    ) -> Result<Next, AllocError>
        requires entries { AreEntries self.now }
        requires more { length values.now < length self.now.cells.now }
        requires settled { AreValuesSettled self.now (F.limit f.old) values.now }
        requires light { AreAllLight self.now (F.limit f.old) }
        requires known { MayKnow self.now values.now before }
        ensures limit { F.limit f.new ≡ F.limit f.old }
        ensures found { IfOk result (IsNext self.now (F.limit f.old) values.now) }
    {
        let tried = self.tried(alloc, values, before)?;
        let found = self.lesser(alloc, f, values, tried.most)?;
        match found {
            Lesser::Met(value, world) => {
                let more = extended(alloc, values, value)?;
                let known = self.keep(alloc, world, more.as_slice())?;
                Ok(Next { value, known })
            }
            Lesser::Nothing => Ok(Next {
                value: tried.most,
                known: tried.known,
            }),
        }
    }

    /// Looks for the values of all entries, one after the other, each as small as it can be, where
    /// all trials are light. The world meets the query.
    pub fn each_known<F: Finder>(
        &self,
        alloc: Global,
        f: &mut F,
        world: World,
    ) -> Result<Seq<u32>, AllocError>
        requires entries { AreEntries self.now }
        requires settled { AreValuesSettled self.now (F.limit f.old) [] }
        requires light { AreAllLight self.now (F.limit f.old) }
        requires meets { MeetsQuery (sig_of self.now.search) (query_of self.now.search) world }
        ensures limit { F.limit f.new ≡ F.limit f.old }
        ensures found { IfOk result (λ vs. AreEntriesFound self.now (F.limit f.old) (All_of.Found vs)) }
    {
        let mut values = Seq::new(alloc);
        let mut known = self.keep(alloc, world, &[])?;
        'each: for _k in 0..self.cells.len() {
            let next = self.next_known(alloc, f, values.as_slice(), known)?;
            values.push(next.value)?;
            known = next.known;
        }
        Ok(values)
    }

    /// Looks for the values of all entries. The world meets the query. Where some trial is above the
    /// limit, all are asked, so that the first one that is above it is found.
    pub fn all_values<F: Finder>(
        &self,
        alloc: Global,
        f: &mut F,
        world: World,
    ) -> Result<Numbers, AllocError>
        requires entries { AreEntries self.now }
        requires settled { AreValuesSettled self.now (F.limit f.old) [] }
        requires meets { MeetsQuery (sig_of self.now.search) (query_of self.now.search) world }
        ensures limit { F.limit f.new ≡ F.limit f.old }
        ensures found { IfOk result (AreEntriesFound self.now (F.limit f.old)) }
    {
        let light = self.are_light(alloc, f)?;
        if !light {
            return self.each_value(alloc, f);
        }
        let values = self.each_known(alloc, f, world)?;
        Ok(Numbers::Found(values))
    }
}
