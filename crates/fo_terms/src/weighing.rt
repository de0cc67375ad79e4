ghost use Rattle.std.specs.Prelude.{◌≡◌, ℕ, ◌≤◌, List, [], length, map, slice_index};
ghost use Rattle.std.specs.List.{All};
ghost use Rattle.fo_core.specs.Sorted.{HasSorts, IsSig};
ghost use Rattle.fo_core.specs.declared.query.TheConstants.{MOST_WEIGHT};
ghost use Rattle.fo_core.specs.Weights.{added, power, nodes as nodes_of, claim_nodes as claim_nodes_of, skolem_nodes as skolem_nodes_of};
ghost use Rattle.fo_norm.specs.Forms.{IsForm};
ghost use Rattle.fo_terms.specs.FormWeight.{AreFew, form_weight};
ghost use Rattle.fo_terms.specs.Weighable.{CanWeigh};
ghost use Rattle.fo_core.specs.QueryWeight.{cut, sort_weight, symbol_weight as symbol_weight_of};

use crate::counting::{copies_of, tuples};
use fo_core::{Formula, Sig, Symbol};
use fo_norm::SkolemForm;

// All numbers here are cut at `u64::MAX`.

/// The nodes of the formula (positive), or of its negation, in negation normal form, each as often as
/// the universals above it have values, where the formula itself stands below so many.
fn nodes(f: &Formula, positive: bool, above: u64, counts: &[u64]) -> u64
    requires { CanWeigh (length counts.now) f.now }
    ensures { (us : List ℕ) → above ≡ cut (power counts.now us) → result ≡ cut (nodes_of counts.now positive f.now us) }
{
    match f {
        Formula::True | Formula::False | Formula::Rel(_, _, _) | Formula::Eq(_, _) => above,
        Formula::Not(g) => nodes(g.get(), !positive, above, counts),
        Formula::And(fs) => {
            let mut sum = above;
            'conjuncts: for g in fs.as_slice() {
                sum = sum.saturating_add(nodes(g, positive, above, counts));
            }
            sum
        }
        Formula::Or(fs) => {
            let mut sum = above;
            'disjuncts: for g in fs.as_slice() {
                sum = sum.saturating_add(nodes(g, positive, above, counts));
            }
            sum
        }
        // Below an odd number of negations a quantifier is the other one.
        Formula::All(s, g) => {
            if !positive {
                return above.saturating_add(nodes(g.get(), positive, above, counts));
            }
            let below = above.saturating_mul(counts[*s as usize]);
            above.saturating_add(nodes(g.get(), positive, below, counts))
        }
        Formula::Ex(s, g) => {
            if positive {
                return above.saturating_add(nodes(g.get(), positive, above, counts));
            }
            let below = above.saturating_mul(counts[*s as usize]);
            above.saturating_add(nodes(g.get(), positive, below, counts))
        }
    }
}

/// The nodes of closed claims.
fn claim_nodes(claims: &[Formula], counts: &[u64]) -> u64
    requires { All (CanWeigh (length counts.now)) claims.now }
    ensures { result ≡ cut (claim_nodes_of counts.now claims.now) }
{
    let mut sum: u64 = 0;
    'each: for claim in claims {
        sum = sum.saturating_add(nodes(claim, true, 1, counts));
    }
    sum
}

/// A node for each Skolem function.
fn skolem_nodes(skolems: &[Symbol], counts: &[u64]) -> u64
    requires { All (HasSorts (length counts.now)) skolems.now }
    ensures { result ≡ cut (skolem_nodes_of counts.now skolems.now) }
{
    let mut sum: u64 = 0;
    'each: for symbol in skolems {
        sum = sum.saturating_add(tuples(symbol.args.as_slice(), counts));
    }
    sum
}

/// Each sort's terms, pairs of terms and triples of terms.
fn sorts_weight(counts: &[u64]) -> u64
    ensures { result ≡ cut (added sort_weight counts.now) }
{
    let mut sum: u64 = 0;
    'each: for count in counts {
        let pairs = count.saturating_mul(*count);
        let triples = pairs.saturating_mul(*count);
        sum = sum.saturating_add(count.saturating_add(pairs.saturating_add(triples)));
    }
    sum
}

/// A symbol's tuples of arguments with one more term of one argument's sort, in each of its copies.
fn symbol_weight(symbol: &Symbol, copies: u32, counts: &[u64]) -> u64
    requires { HasSorts (length counts.now) symbol.now }
    ensures { result ≡ cut (symbol_weight_of copies counts.now symbol.now) }
{
    let tuples = tuples(symbol.args.as_slice(), counts);
    let mut sum: u64 = 0;
    'each: for sort in symbol.args.as_slice() {
        sum = sum.saturating_add(tuples.saturating_mul(counts[*sort as usize]));
    }
    u64::from(copies_of(symbol, copies)).saturating_mul(sum)
}

/// What the symbols weigh.
fn symbols_weight(symbols: &[Symbol], copies: u32, counts: &[u64]) -> u64
    requires { All (HasSorts (length counts.now)) symbols.now }
    ensures { result ≡ cut (added (symbol_weight_of copies counts.now) symbols.now) }
{
    let mut sum: u64 = 0;
    'each: for symbol in symbols {
        sum = sum.saturating_add(symbol_weight(symbol, copies, counts));
    }
    sum
}

/// The weight of a form whose sorts have so many ground terms, cut at `u64::MAX`: how much there is
/// once everything is instantiated by ground terms. It takes no memory.
///
/// It is the sum of three parts. The nodes of the claims count as often as the universals above them
/// have values, where an existential's node is that of its Skolem function. Each sort counts its
/// terms, their pairs and their triples. Each symbol of the signature in each of its copies counts,
/// for each of its arguments, its tuples of arguments times the terms of that argument's sort. There
/// has to be a number for each sort.
pub fn weight(sig: &Sig, form: &SkolemForm, counts: &[u64]) -> u64
    requires sig { IsSig sig.now }
    requires form { IsForm sig.now form.now }
    requires counts { length counts.now ≡ sig.now.sorts }
    ensures weight { result ≡ form_weight sig.now form.now counts.now }
    ensures uncut { (U : List ℕ) → counts.now ≡ map cut U → result ≡ form_weight sig.now form.now U }
    ensures light { (U : List ℕ) → counts.now ≡ map cut U → result ≤ MOST_WEIGHT → AreFew U }
{
    claim_nodes(form.claims.as_slice(), counts)
        .saturating_add(skolem_nodes(form.skolems.as_slice(), counts))
        .saturating_add(sorts_weight(counts))
        .saturating_add(symbols_weight(sig.symbols.as_slice(), form.copies, counts))
}
