ghost use Rattle.std.specs.Prelude.{true, false, ◌≡◌, ◌<◌, ◌++◌, ◌∷◌, [], length, replicate, IfOk, IsTrue};
ghost use Rattle.fo_core.specs.Finds.{CanSearch, IsLight};
ghost use Rattle.fo_core.specs.Queries.{MeetsQuery};
ghost use Rattle.fo_min.specs.Found.{IsFoundLeast};
ghost use Rattle.fo_min.specs.Search.{IsSearch, sig_of, query_of, sorts_of, HasSizes, AreSettled};
ghost use Rattle.fo_min.specs.Search.{IsQueryAnswer, IsSizeAnswer, IsSizeFound, AreSizesFound};
ghost use Rattle.fo_min.specs.Search.{AreValuesFound, IsSearchAnswer, AreEntries, range_next};
ghost use Rattle.fo_min.specs.Search.{is_relation_next, AreValuesSettled, IsValueAnswer};
ghost use Rattle.fo_min.specs.Search.{IsValueFound, AreEntriesFound};
ghost use Rattle.fo_min.specs.Known.{AreAllLight, IsLesser};

use crate::building::{size_trial, value_trial};
use crate::found::{Excess, Least};
use crate::places::cells;
use crate::world::world_from;
use fo_core::{Cell, Finder, Found, Order, Query, Seq, System, World};
use std::alloc::{AllocError, Global};

/// What a query showed.
#[derive(Drop)]
enum Answer {
    /// A world that meets it.
    Met(World),
    /// No world meets it.
    Nothing,
    /// It is above the limit.
    Over(Excess),
}

/// How the search for the size of a sort ended.
#[derive(Drop)]
enum NextSize {
    /// The size, and a world that has it.
    Found(u32, World),
    Over(Excess),
}

/// How the search for the value of a table entry ended.
#[derive(Drop)]
enum NextValue {
    Found(u32),
    Over(Excess),
}

/// How the search for all sizes ended.
#[derive(Drop)]
enum Sizes {
    /// The sizes, and a world that has them.
    Found(Seq<u32>, World),
    Over(Excess),
}

/// How the search for all values ended.
#[derive(Drop)]
pub enum Numbers {
    Found(Seq<u32>),
    Over(Excess),
}

/// What the trials of the values below a bound showed, where none is above the limit.
#[derive(Drop)]
pub enum Lesser {
    /// The least value that some world has, and that world.
    Met(u32, World),
    /// No world has any.
    Nothing,
}

/// A search for the least of the worlds of a system's signature that meet a query.
#[derive(Clone, Copy)]
pub struct Search<'a> {
    pub sys: &'a System,
    pub order: &'a Order,
    pub query: &'a Query,
}

/// What is left of it where the sizes of all sorts are settled: the search for the values of the
/// table entries, which stand at these places.
#[derive(Clone, Copy)]
pub struct Entries<'a> {
    pub search: Search<'a>,
    pub sizes: &'a [u32],
    pub cells: &'a [Cell],
}

/// Asks for a world that meets the query.
fn ask<F: Finder>(
    alloc: Global,
    f: &mut F,
    sys: &System,
    order: &Order,
    p: Query,
) -> Result<Answer, AllocError>
    requires search { CanSearch sys.now order.now p }
    ensures limit { F.limit f.new ≡ F.limit f.old }
    ensures answer { IfOk result (IsQueryAnswer sys.now.sig (F.limit f.old) p) }
{
    match f.find(alloc, sys, order, &p)? {
        Found::Model(world) => Ok(Answer::Met(world)),
        Found::Nothing => Ok(Answer::Nothing),
        Found::Over(weight) => Ok(Answer::Over(Excess { weight, query: p })),
    }
}

/// The numbers, and this one after them.
pub fn extended(alloc: Global, numbers: &[u32], n: u32) -> Result<Seq<u32>, AllocError>
    ensures { IfOk result (λ ms. ms ≡ numbers.now ++ n ∷ []) }
{
    let mut more = Seq::from_vec(numbers.to_vec(alloc)?);
    more.push(n)?;
    Ok(more)
}

/// A list of `count` zeros.
fn zeros(alloc: Global, count: usize) -> Result<Seq<u32>, AllocError>
    ensures zeros { IfOk result (λ ns. ns ≡ replicate count 0) }
    ensures count { IfOk result (λ ns. length ns ≡ count) }
{
    let mut numbers = Seq::new(alloc);
    'each: for _i in 0..count {
        numbers.push(0)?;
    }
    Ok(numbers)
}

impl<'a> Search<'a> {
    /// Asks for a world in which the next sort, after sorts of these sizes, has n elements.
    fn ask_size<F: Finder>(
        &self,
        alloc: Global,
        f: &mut F,
        sizes: &[u32],
        n: u32,
    ) -> Result<Answer, AllocError>
        requires search { IsSearch self.now }
        requires more { length sizes.now < sorts_of self.now }
        ensures limit { F.limit f.new ≡ F.limit f.old }
        ensures answer { IfOk result (IsSizeAnswer self.now (F.limit f.old) sizes.now n) }
    {
        let _sorts = self.sys.sig.sorts;
        let tried = extended(alloc, sizes, n)?;
        let p = size_trial(alloc, self.query, tried.as_slice())?;
        ask(alloc, f, self.sys, self.order, p)
    }

    /// Looks for the least size of the next sort, after sorts of these sizes. The world has these.
    fn next_size<F: Finder>(
        &self,
        alloc: Global,
        f: &mut F,
        sizes: &[u32],
        world: &World,
    ) -> Result<NextSize, AllocError>
        requires search { IsSearch self.now }
        requires more { length sizes.now < sorts_of self.now }
        requires settled { AreSettled self.now (F.limit f.old) sizes.now [] }
        requires world { HasSizes self.now sizes.now world.now }
        ensures limit { F.limit f.new ≡ F.limit f.old }
        ensures found { IfOk result (IsSizeFound self.now (F.limit f.old) sizes.now) }
    {
        let most = *world.sizes.at(sizes.len());
        'each: for m in 0..most {
            match self.ask_size(alloc, f, sizes, m + 1)? {
                Answer::Met(own) => return Ok(NextSize::Found(m + 1, own)),
                Answer::Nothing => {}
                Answer::Over(excess) => return Ok(NextSize::Over(excess)),
            }
        }
        unreachable!()
    }

    /// Looks for the sizes of all sorts, one after the other, each as small as it can be. The world
    /// meets the query.
    fn least_sizes<F: Finder>(
        &self,
        alloc: Global,
        f: &mut F,
        world: World,
    ) -> Result<Sizes, AllocError>
        requires search { IsSearch self.now }
        requires world { MeetsQuery (sig_of self.now) (query_of self.now) world }
        requires light { IsLight (sig_of self.now) (F.limit f.old) (query_of self.now) }
        ensures limit { F.limit f.new ≡ F.limit f.old }
        ensures found { IfOk result (AreSizesFound self.now (F.limit f.old)) }
    {
        let mut last = world;
        let mut sizes = Seq::new(alloc);
        let sorts = self.sys.sig.sorts;
        'each: for _s in 0..sorts {
            match self.next_size(alloc, f, sizes.as_slice(), &last)? {
                NextSize::Found(n, own) => {
                    sizes.push(n)?;
                    last = own;
                }
                NextSize::Over(excess) => return Ok(Sizes::Over(excess)),
            }
        }
        Ok(Sizes::Found(sizes, last))
    }

    /// Looks for the values of all table entries, where the sorts have these sizes. The world meets
    /// the query.
    fn least_values<F: Finder>(
        &self,
        alloc: Global,
        f: &mut F,
        sizes: &[u32],
        world: World,
    ) -> Result<Numbers, AllocError>
        requires search { IsSearch self.now }
        requires world { MeetsQuery (sig_of self.now) (query_of self.now) world }
        requires sorts { length sizes.now ≡ sorts_of self.now }
        requires settled { AreSettled self.now (F.limit f.old) sizes.now [] }
        ensures limit { F.limit f.new ≡ F.limit f.old }
        ensures found { IfOk result (AreValuesFound self.now (F.limit f.old) sizes.now) }
    {
        let cells = cells(alloc, &self.sys.sig, sizes, self.query.copies)?;
        let entries = Entries {
            search: *self,
            sizes,
            cells: cells.as_slice(),
        };
        entries.all_values(alloc, f, world)
    }

    /// Looks for the least world, where the sorts have these sizes. The world meets the query.
    fn least_with<F: Finder>(
        &self,
        alloc: Global,
        f: &mut F,
        sizes: &[u32],
        world: World,
    ) -> Result<Least, AllocError>
        requires search { IsSearch self.now }
        requires sorts { length sizes.now ≡ sorts_of self.now }
        requires settled { AreSettled self.now (F.limit f.old) sizes.now [] }
        requires world { MeetsQuery (sig_of self.now) (query_of self.now) world }
        ensures limit { F.limit f.new ≡ F.limit f.old }
        ensures found { IfOk result (IsSearchAnswer self.now (F.limit f.old)) }
    {
        let values = match self.least_values(alloc, f, sizes, world)? {
            Numbers::Found(values) => values,
            Numbers::Over(excess) => return Ok(Least::Over(excess)),
        };
        let least = world_from(
            alloc,
            &self.sys.sig,
            self.query.copies,
            sizes,
            values.as_slice(),
        )?;
        Ok(Least::Model(least))
    }

    /// Looks for the least world, where this one meets the query.
    fn least_world<F: Finder>(
        &self,
        alloc: Global,
        f: &mut F,
        world: World,
    ) -> Result<Least, AllocError>
        requires search { IsSearch self.now }
        requires world { MeetsQuery (sig_of self.now) (query_of self.now) world }
        requires light { IsLight (sig_of self.now) (F.limit f.old) (query_of self.now) }
        ensures limit { F.limit f.new ≡ F.limit f.old }
        ensures found { IfOk result (IsSearchAnswer self.now (F.limit f.old)) }
    {
        let found = self.least_sizes(alloc, f, world)?;
        match found {
            Sizes::Found(sizes, last) => self.least_with(alloc, f, sizes.as_slice(), last),
            Sizes::Over(excess) => Ok(Least::Over(excess)),
        }
    }
}

impl<'a> Entries<'a> {
    /// Asks whether no trial of values is above the limit. One that settles all entries is as heavy
    /// as each that does, and no other is heavier.
    pub fn are_light<F: Finder>(&self, alloc: Global, f: &mut F) -> Result<bool, AllocError>
        requires entries { AreEntries self.now }
        requires settled { AreValuesSettled self.now (F.limit f.old) [] }
        ensures limit { F.limit f.new ≡ F.limit f.old }
        ensures light { IfOk result (λ b. IsTrue b → AreAllLight self.now (F.limit f.old)) }
    {
        let Search { sys, order, query } = self.search;
        let _sorts = sys.sig.sorts;
        let zeros = zeros(alloc, self.cells.len())?;
        let p = value_trial(
            alloc,
            &sys.sig,
            query,
            self.sizes,
            self.cells,
            zeros.as_slice(),
        )?;
        match ask(alloc, f, sys, order, p)? {
            Answer::Met(_) => Ok(true),
            Answer::Nothing => Ok(true),
            Answer::Over(_) => Ok(false),
        }
    }

    /// Looks for the least value below `most` that the next entry, after entries with these values,
    /// has in some world, where all trials are light.
    pub fn lesser<F: Finder>(
        &self,
        alloc: Global,
        f: &mut F,
        values: &[u32],
        most: u32,
    ) -> Result<Lesser, AllocError>
        requires entries { AreEntries self.now }
        requires more { length values.now < length self.now.cells.now }
        requires settled { AreValuesSettled self.now (F.limit f.old) values.now }
        requires light { AreAllLight self.now (F.limit f.old) }
        requires in_range { most < range_next self.now values.now }
        ensures limit { F.limit f.new ≡ F.limit f.old }
        ensures lesser { IfOk result (IsLesser self.now values.now most) }
    {
        'each: for v in 0..most {
            match self.ask_value(alloc, f, values, v)? {
                Answer::Met(world) => return Ok(Lesser::Met(v, world)),
                Answer::Nothing => {}
                Answer::Over(_) => unreachable!(),
            }
        }
        Ok(Lesser::Nothing)
    }

    /// The values of the next entry, after entries with these values, are below this.
    pub fn range(&self, values: &[u32]) -> u32
        requires entries { AreEntries self.now }
        requires more { length values.now < length self.now.cells.now }
        ensures { result ≡ range_next self.now values.now }
    {
        let number = self.cells[values.len()].symbol as usize;
        let symbol = self.search.sys.sig.symbols.at(number);
        if symbol.relation {
            2
        } else {
            self.sizes[symbol.result as usize]
        }
    }

    /// Asks for a world in which the next entry, after entries with these values, has the value v.
    fn ask_value<F: Finder>(
        &self,
        alloc: Global,
        f: &mut F,
        values: &[u32],
        v: u32,
    ) -> Result<Answer, AllocError>
        requires entries { AreEntries self.now }
        requires more { length values.now < length self.now.cells.now }
        requires settled { AreValuesSettled self.now (F.limit f.old) values.now }
        requires in_range { v < range_next self.now values.now }
        ensures limit { F.limit f.new ≡ F.limit f.old }
        ensures answer { IfOk result (IsValueAnswer self.now (F.limit f.old) values.now v) }
    {
        let Search { sys, order, query } = self.search;
        let _sorts = sys.sig.sorts;
        let tried = extended(alloc, values, v)?;
        let p = value_trial(
            alloc,
            &sys.sig,
            query,
            self.sizes,
            self.cells,
            tried.as_slice(),
        )?;
        ask(alloc, f, sys, order, p)
    }

    /// Looks for the next value, of a relation: 0 where some world has it, else 1.
    fn next_truth<F: Finder>(
        &self,
        alloc: Global,
        f: &mut F,
        values: &[u32],
    ) -> Result<NextValue, AllocError>
        requires entries { AreEntries self.now }
        requires more { length values.now < length self.now.cells.now }
        requires settled { AreValuesSettled self.now (F.limit f.old) values.now }
        requires relation { is_relation_next self.now values.now ≡ true }
        ensures limit { F.limit f.new ≡ F.limit f.old }
        ensures found { IfOk result (IsValueFound self.now (F.limit f.old) values.now) }
    {
        match self.ask_value(alloc, f, values, 0)? {
            Answer::Met(_) => Ok(NextValue::Found(0)),
            Answer::Nothing => Ok(NextValue::Found(1)),
            Answer::Over(excess) => Ok(NextValue::Over(excess)),
        }
    }

    /// Looks for the next value, of a function: the least element that it is in some world. Its
    /// sort has `size` elements.
    fn next_element<F: Finder>(
        &self,
        alloc: Global,
        f: &mut F,
        values: &[u32],
        size: u32,
    ) -> Result<NextValue, AllocError>
        requires entries { AreEntries self.now }
        requires more { length values.now < length self.now.cells.now }
        requires settled { AreValuesSettled self.now (F.limit f.old) values.now }
        requires function { is_relation_next self.now values.now ≡ false }
        requires size { size ≡ range_next self.now values.now }
        ensures limit { F.limit f.new ≡ F.limit f.old }
        ensures found { IfOk result (IsValueFound self.now (F.limit f.old) values.now) }
    {
        'each: for v in 0..size {
            match self.ask_value(alloc, f, values, v)? {
                Answer::Met(_) => return Ok(NextValue::Found(v)),
                Answer::Nothing => {}
                Answer::Over(excess) => return Ok(NextValue::Over(excess)),
            }
        }
        unreachable!()
    }

    /// Looks for the next value.
    fn next_value<F: Finder>(
        &self,
        alloc: Global,
        f: &mut F,
        values: &[u32],
    ) -> Result<NextValue, AllocError>
        requires entries { AreEntries self.now }
        requires more { length values.now < length self.now.cells.now }
        requires settled { AreValuesSettled self.now (F.limit f.old) values.now }
        ensures limit { F.limit f.new ≡ F.limit f.old }
        ensures found { IfOk result (IsValueFound self.now (F.limit f.old) values.now) }
    {
        let number = self.cells[values.len()].symbol as usize;
        let symbol = self.search.sys.sig.symbols.at(number);
        if symbol.relation {
            return self.next_truth(alloc, f, values);
        }
        let size = self.sizes[symbol.result as usize];
        self.next_element(alloc, f, values, size)
    }

    /// Looks for the values of all entries, one after the other, each as small as it can be.
    pub fn each_value<F: Finder>(&self, alloc: Global, f: &mut F) -> Result<Numbers, AllocError>
        requires entries { AreEntries self.now }
        requires settled { AreValuesSettled self.now (F.limit f.old) [] }
        ensures limit { F.limit f.new ≡ F.limit f.old }
        ensures found { IfOk result (AreEntriesFound self.now (F.limit f.old)) }
    {
        let mut values = Seq::new(alloc);
        'each: for _k in 0..self.cells.len() {
            match self.next_value(alloc, f, values.as_slice())? {
                NextValue::Found(v) => values.push(v)?,
                NextValue::Over(excess) => return Ok(Numbers::Over(excess)),
            }
        }
        Ok(Numbers::Found(values))
    }
}

/// Looks for the least of the worlds that meet the query: first by how many elements the sorts
/// have, sort by sort, and then by the values of the tables, in the order in which finders of
/// finite models enumerate them (Jian Zhang and Hantao Zhang, "SEM: a System for Enumerating
/// Models", 1995).
///
/// Where some world meets the query, it asks which size each sort can have, from 1 on, and then
/// which value each table entry can have, from 0 on, and settles each before it asks for the next
/// one. So the answer is the same whatever worlds the finder gives.
///
/// Before the values it asks one trial that settles all entries. Unless that is above the limit, no
/// trial of values is, and a value that the world found last has needs no question: only lesser ones
/// are asked for.
///
/// It asks for what [`Finder::find`] asks for. Where a query of the search is above the finder's
/// limit, it gives that query and its weight. Where the sizes that are tried sum up to 2^32 or
/// more, it answers out of memory.
pub fn least<F: Finder>(
    alloc: Global,
    f: &mut F,
    sys: &System,
    order: &Order,
    q: &Query,
) -> Result<Least, AllocError>
    requires search { CanSearch sys.now order.now q.now }
    ensures limit { F.limit f.new ≡ F.limit f.old }
    ensures found { IfOk result (IsFoundLeast sys.now.sig q.now (F.limit f.old)) }
{
    let search = Search {
        sys,
        order,
        query: q,
    };
    match ask(alloc, f, sys, order, q.copy(alloc)?)? {
        Answer::Met(world) => search.least_world(alloc, f, world),
        Answer::Nothing => Ok(Least::Nothing),
        Answer::Over(excess) => Ok(Least::Over(excess)),
    }
}
