ghost use Rattle.std.specs.Prelude.{◌≡◌, ◌↔◌, ◌⊎◌, ℕ, [], false, true, IfOk, OnOk};
ghost use Rattle.std.specs.List.{Any, Contains};
ghost use Rattle.fo_core.specs.SortGraph.{HasExistential, FormulaEdge, FormulasEdge, StepsEdge, FunctionEdge, Leads, InferEdge, SortEdge};
ghost use Rattle.pyv_strat.specs.Edges.{Among, Adds};

use crate::edges::{Edge, add_from_each};
use fo_core::{Formula, Purpose, Step, Symbol, System};
use std::alloc::{AllocError, Global};

/// Adds the edges that the negation normal form of the formula has, or of its negation where the
/// sign is false, below universals of the sorts in `above`, which ends as it began.
fn add_of_formula(
    f: &Formula,
    sign: bool,
    above: &mut Vec<u32>,
    edges: &mut Vec<Edge>,
) -> Result<(), AllocError>
    ensures edges { OnOk result (Adds edges.old.items edges.new.items (λ a b. FormulaEdge a b f.now sign ⊎ (Contains above.old.items a × HasExistential b f.now sign))) }
    ensures same { OnOk result (above.new.items ≡ above.old.items) }
{
    match f {
        Formula::True | Formula::False | Formula::Rel(_, _, _) | Formula::Eq(_, _) => Ok(()),
        Formula::Not(g) => add_of_formula(g.get(), !sign, above, edges),
        Formula::And(fs) => {
            'conjuncts: for g in fs.as_slice() {
                add_of_formula(g, sign, above, edges)?;
            }
            Ok(())
        }
        Formula::Or(fs) => {
            'disjuncts: for g in fs.as_slice() {
                add_of_formula(g, sign, above, edges)?;
            }
            Ok(())
        }
        Formula::All(s, g) => {
            if !sign {
                add_from_each(edges, above.as_slice(), *s)?;
                return add_of_formula(g.get(), sign, above, edges);
            }
            above.push(*s)?;
            add_of_formula(g.get(), sign, above, edges)?;
            above.pop();
            Ok(())
        }
        Formula::Ex(s, g) => {
            if sign {
                add_from_each(edges, above.as_slice(), *s)?;
                return add_of_formula(g.get(), sign, above, edges);
            }
            above.push(*s)?;
            add_of_formula(g.get(), sign, above, edges)?;
            above.pop();
            Ok(())
        }
    }
}

/// Adds the edges of these formulas, or of their negations where the sign is false.
fn add_of_formulas(
    alloc: Global,
    fs: &[Formula],
    sign: bool,
    edges: &mut Vec<Edge>,
) -> Result<(), AllocError>
    ensures { OnOk result (Adds edges.old.items edges.new.items (FormulasEdge fs.now sign)) }
{
    let mut above = Vec::new(alloc);
    'each: for f in fs {
        add_of_formula(f, sign, &mut above, edges)?;
    }
    Ok(())
}

/// Adds the edges of the transitions' bodies, whose parameters stand below no universal.
fn add_of_steps(alloc: Global, steps: &[Step], edges: &mut Vec<Edge>) -> Result<(), AllocError>
    ensures { OnOk result (Adds edges.old.items edges.new.items (StepsEdge steps.now)) }
{
    let mut above = Vec::new(alloc);
    'each: for step in steps {
        add_of_formula(&step.body, true, &mut above, edges)?;
    }
    Ok(())
}

/// Adds the edges from a function's arguments to its result.
fn add_of_symbol(symbol: &Symbol, edges: &mut Vec<Edge>) -> Result<(), AllocError>
    ensures { OnOk result (Adds edges.old.items edges.new.items (λ a b. Leads a b symbol.now)) }
{
    if symbol.relation {
        return Ok(());
    }
    add_from_each(edges, symbol.args.as_slice(), symbol.result)
}

/// Adds the edges of the functions.
fn add_of_functions(symbols: &[Symbol], edges: &mut Vec<Edge>) -> Result<(), AllocError>
    ensures { OnOk result (Adds edges.old.items edges.new.items (λ a b. Any (Leads a b) symbols.now)) }
{
    'each: for symbol in symbols {
        add_of_symbol(symbol, edges)?;
    }
    Ok(())
}

/// Adds the edges that inference looks at.
fn add_inferred(alloc: Global, sys: &System, edges: &mut Vec<Edge>) -> Result<(), AllocError>
    ensures { OnOk result (Adds edges.old.items edges.new.items (InferEdge sys.now)) }
{
    add_of_functions(sys.sig.symbols.as_slice(), edges)?;
    add_of_formulas(alloc, sys.axioms.as_slice(), true, edges)?;
    add_of_formulas(alloc, sys.inits.as_slice(), true, edges)?;
    add_of_steps(alloc, sys.steps.as_slice(), edges)?;
    add_of_formulas(alloc, sys.safeties.as_slice(), false, edges)
}

/// Adds the edges that verification looks at besides.
fn add_claimed(alloc: Global, sys: &System, edges: &mut Vec<Edge>) -> Result<(), AllocError>
    ensures { OnOk result (Adds edges.old.items edges.new.items (λ a b. FormulasEdge sys.now.safeties true a b ⊎ FormulasEdge sys.now.invariants true a b ⊎ FormulasEdge sys.now.invariants false a b)) }
{
    add_of_formulas(alloc, sys.safeties.as_slice(), true, edges)?;
    add_of_formulas(alloc, sys.invariants.as_slice(), true, edges)?;
    add_of_formulas(alloc, sys.invariants.as_slice(), false, edges)
}

/// The edges of the system's sort graph for the purpose.
pub fn sort_graph(alloc: Global, sys: &System, purpose: Purpose) -> Result<Vec<Edge>, AllocError>
    ensures { IfOk result (λ edges. (a b : ℕ) → Among edges.items a b ↔ SortEdge sys.now purpose a b) }
{
    let mut edges = Vec::new(alloc);
    add_inferred(alloc, sys, &mut edges)?;
    match purpose {
        Purpose::Infer => Ok(edges),
        Purpose::Verify => {
            add_claimed(alloc, sys, &mut edges)?;
            Ok(edges)
        }
    }
}
