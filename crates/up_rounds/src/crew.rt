//! The jobs of a round, solved beside one another.

ghost use Rattle.std.specs.Prelude.{◌≡◌, ◌+◌, ◌-◌, ◌/◌, ◌<◌, ◌≤◌, ◌++◌, ◌∷◌, [], ◌⊎◌, ℕ, IfOk, OnOk, IsSome, length, map, max, min, take, vec_len, slice_index_or};
ghost use Rattle.std.specs.List.{All, AllZip};
ghost use Rattle.up_jobs.specs.Solving.{CanSolve, IsSolved};
ghost use Rattle.up_rounds.specs.Asking.{AreSolved};
ghost use Rattle.up_rounds.specs.Crew.{AreGathered, HasSolved, answers_of, share_begin, share_of};

use fo_core::{Finder, Finders, Order, System};
use std::alloc::{AllocError, Global};
use std::thread;
use std::thread::Threads;
use up_jobs::{Solved, solve_brief};
use up_machine::Brief;

/// The finders of a run, one for each thread that has solved jobs: they are kept from round to round,
/// since they remember what they built.
#[derive(Drop)]
pub(crate) struct Crew<F> {
    pub finders: Vec<F>,
}

/// A finder at work, and its answers to its share of the jobs: `None` before it has solved them, and
/// where it was out of memory.
#[derive(Drop)]
struct Cell<F> {
    finder: F,
    answers: Option<Vec<Solved>>,
}

/// The place of the first job of a share.
fn begin_of(jobs: usize, shares: usize, share: usize) -> usize
    requires shares { 0 < shares }
    requires within { share ≤ shares }
    ensures begin { result ≡ share_begin jobs shares share }
    ensures within { result ≤ jobs }
{
    share * (jobs / shares) + share.min(jobs % shares)
}

/// The jobs of a share.
fn share_at(briefs: &[Brief], shares: usize, share: usize) -> &[Brief]
    requires { share < shares }
    ensures share { result.now ≡ share_of briefs.now shares share }
    ensures even { (length briefs.now / shares ≤ length result.now)
        × (length result.now ≤ length briefs.now / shares + 1) }
{
    let begin = begin_of(briefs.len(), shares, share);
    let end = begin_of(briefs.len(), shares, share + 1);
    &briefs[begin..end]
}

/// Solves the jobs of a share one after another, and gives the answers in the order of the briefs.
fn solve_all<F: Finder>(
    alloc: Global,
    finder: &mut F,
    sys: &System,
    order: &Order,
    briefs: &[Brief],
) -> Result<Vec<Solved>, AllocError>
    requires { All (CanSolve sys.now order.now) briefs.now }
    ensures limit { F.limit finder.new ≡ F.limit finder.old }
    ensures solved { IfOk result (λ v. AllZip (IsSolved sys.now (F.limit finder.old)) briefs.now v.items) }
{
    let mut answers = Vec::new(alloc);
    'each: for brief in briefs {
        answers.push(solve_brief(alloc, finder, sys, order, brief)?)?;
    }
    Ok(answers)
}

/// Solves the jobs of a share, and leaves the answers in the cell.
fn solve_share<F: Finder>(
    alloc: Global,
    cell: &mut Cell<F>,
    sys: &System,
    order: &Order,
    briefs: &[Brief],
)
    requires { All (CanSolve sys.now order.now) briefs.now }
    ensures { HasSolved F.limit sys.now briefs.now cell.old cell.new }
{
    cell.answers = solve_all(alloc, &mut cell.finder, sys, order, briefs).ok();
}

/// Each cell solves its share of the jobs, in a thread of its own where one can be started. For one
/// cell no thread is started: `for_each_mut` calls the last cell's work in the caller's thread.
fn solve_shares<F: Finder + Send, R: Threads + Sync>(
    rt: &R,
    alloc: Global,
    cells: &mut [Cell<F>],
    sys: &System,
    order: &Order,
    briefs: &[Brief],
)
    requires { All (CanSolve sys.now order.now) briefs.now }
    ensures { (k : ℕ) (d : _) → k < length cells.old →
        HasSolved F.limit sys.now (share_of briefs.now (length cells.old) k)
        (slice_index_or cells.old k d) (slice_index_or cells.new k d) }
{
    let shares = cells.len();
    if shares == 0 {
        return;
    }
    thread::for_each_mut(
        rt,
        cells,
        shares,
        &|k, cell: &mut Cell<F>|
            requires { (k < shares) × All (CanSolve sys.now order.now) briefs.now }
            ensures { HasSolved F.limit sys.entry.now (share_of briefs.entry.now shares k)
                cell.old cell.new }
        { solve_share(alloc, cell, sys, order, share_at(briefs, shares, k)) },
    );
}

/// Takes a finder out of the crew, or makes one where none is left.
fn finder_of<M: Finders>(
    alloc: Global,
    makers: &M,
    crew: &mut Crew<M::One>,
) -> Result<M::One, AllocError>
    requires { All (λ f. M.One.limit f ≡ M.limit makers.now) crew.old.finders.items }
    ensures kept { All (λ f. M.One.limit f ≡ M.limit makers.now) crew.new.finders.items }
    ensures limit { IfOk result (λ f. M.One.limit f ≡ M.limit makers.now) }
    ensures taken { length crew.new.finders.items ≡ length crew.old.finders.items - 1 }
{
    match crew.finders.pop() {
        Some(finder) => Ok(finder),
        None => makers.one(alloc),
    }
}

/// Makes a cell for each share: the crew's finders go into the cells, and new ones are made only where
/// the crew has too few.
fn cells_of<M: Finders>(
    alloc: Global,
    makers: &M,
    crew: &mut Crew<M::One>,
    shares: usize,
) -> Result<Vec<Cell<M::One>>, AllocError>
    requires { All (λ f. M.One.limit f ≡ M.limit makers.now) crew.old.finders.items }
    ensures kept { All (λ f. M.One.limit f ≡ M.limit makers.now) crew.new.finders.items }
    ensures limit { IfOk result (λ v. All (λ cell. M.One.limit cell.finder ≡ M.limit makers.now) v.items) }
    ensures many { IfOk result (λ v. vec_len v ≡ shares) }
    ensures taken { OnOk result
        (length crew.new.finders.items ≡ length crew.old.finders.items - shares) }
{
    let mut cells = Vec::new(alloc);
    'each: for _made in 0..shares {
        cells.push(Cell {
            finder: finder_of(alloc, makers, crew)?,
            answers: None,
        })?;
    }
    Ok(cells)
}

/// Gives the cell's finder back to the crew, and puts its answers after those of the cells before it.
fn hand_in<F: Drop>(
    crew: &mut Crew<F>,
    all: &mut Vec<Solved>,
    cell: Cell<F>,
) -> Result<(), AllocError>
    ensures finder { (crew.new.finders.items ≡ crew.old.finders.items)
        ⊎ (crew.new.finders.items ≡ crew.old.finders.items ++ cell.finder ∷ []) }
    ensures back { OnOk result (crew.new.finders.items ≡ crew.old.finders.items ++ cell.finder ∷ []) }
    ensures some { OnOk result (IsSome cell.answers) }
    ensures answers { OnOk result (all.new.items ≡ all.old.items ++ answers_of cell) }
{
    let Cell { finder, answers } = cell;
    crew.finders.push(finder)?;
    let mut answers = answers.ok_or(AllocError)?;
    all.append(&mut answers)
}

/// The answers of all cells, in the order of the shares. The crew has the finders back; out of memory
/// it has those of the first cells alone.
fn gather<F: Drop>(
    alloc: Global,
    crew: &mut Crew<F>,
    cells: Vec<Cell<F>>,
) -> Result<Vec<Solved>, AllocError>
    ensures finders { (n : ℕ) × (crew.new.finders.items
        ≡ crew.old.finders.items ++ map (λ cell. cell.finder) (take n cells.items)) }
    ensures back { IfOk result (λ _. crew.new.finders.items
        ≡ crew.old.finders.items ++ map (λ cell. cell.finder) cells.items) }
    ensures gathered { IfOk result (λ s. AreGathered cells.items s.items) }
{
    let mut all = Vec::new(alloc);
    'each: for cell in cells {
        hand_in(crew, &mut all, cell)?;
    }
    Ok(all)
}

/// Solves the jobs of a round, in at most this many threads: a thread has a finder, which the crew
/// keeps, and a share of the jobs: the crew grows only where it has fewer finders than there are
/// workers or jobs. One worker starts no thread, and nor does a round of one job. Where a thread can't
/// be started the caller does its work. The one error is out of memory.
pub(crate) fn solve_jobs<M: Finders, R: Threads + Sync>(
    rt: &R,
    alloc: Global,
    makers: &M,
    crew: &mut Crew<M::One>,
    workers: u32,
    sys: &System,
    order: &Order,
    briefs: &[Brief],
) -> Result<Vec<Solved>, AllocError>
    requires workers { 0 < workers }
    requires finders { All (λ f. M.One.limit f ≡ M.limit makers.now) crew.old.finders.items }
    requires asked { All (CanSolve sys.now order.now) briefs.now }
    ensures finders { All (λ f. M.One.limit f ≡ M.limit makers.now) crew.new.finders.items }
    ensures staffed { IfOk result (λ _. length crew.new.finders.items
        ≡ max (length crew.old.finders.items) (min (length briefs.now) workers)) }
    ensures solved { IfOk result (λ s. AreSolved sys.now (M.limit makers.now) briefs.now s.items) }
{
    let shares = briefs.len().min(workers as usize);
    let mut cells = cells_of(alloc, makers, crew, shares)?;
    solve_shares(rt, alloc, cells.as_mut_slice(), sys, order, briefs);
    gather(alloc, crew, cells)
}
