//! Laws about the definitions, each the contract of a function that does nothing.

ghost use Rattle.std.specs.Prelude.{◌≡◌, ◌⊎◌, ◌<◌, ◌≤◌, ◌^◌, ℕ, List, length};
ghost use Rattle.fo_core.specs.declared.names.Names.{Names};
ghost use Rattle.fo_core.specs.declared.system.System.{System};
ghost use Rattle.fo_core.specs.Named.{IsName, NamesFit};
ghost use Rattle.fo_core.specs.Sorted.{IsSystem, IsWithinDepth};
ghost use Rattle.pyv_grammar.specs.declared.tree.Model.{Model};
ghost use Rattle.pyv_grammar.specs.Grammar.{Limits, SpellsFile};
ghost use Rattle.pyv_lex.specs.declared.token.Token.{Token};
ghost use Rattle.pyv_lex.specs.Cutting.{AreTokens};
ghost use Rattle.pyv_meaning.specs.declared.fault.SortFault.{SortFault};
ghost use Rattle.pyv_meaning.specs.declared.variable.Use.{Use};
ghost use Rattle.pyv_meaning.specs.Declaring.{IsDeclaredName};
ghost use Rattle.pyv_meaning.specs.Gets.{GetsOnly, GetsNone, GetsTwo};
ghost use Rattle.pyv_meaning.specs.Items.{items_of};
ghost use Rattle.pyv_meaning.specs.Meaning.{MeansSystem, IsFirstFault};
ghost use Rattle.pyv_meaning.specs.Tree.{Name};

/// A tree means a system or has a first fault, never both; and it means one system, with one list
/// of names, or has one first fault.
pub fn trees_mean_or_fault()
    ensures either { (bytes : List ℕ) (m : Model) → ((sys : System) × (names : Names) × MeansSystem bytes m sys names) ⊎ ((f : SortFault) × IsFirstFault bytes m f) }
    ensures not_both { (bytes : List ℕ) (m : Model) (sys : System) (names : Names) (f : SortFault) → MeansSystem bytes m sys names → ¬ IsFirstFault bytes m f }
    ensures one_system { (bytes : List ℕ) (m : Model) (sys other : System) (names others : Names) → MeansSystem bytes m sys names → MeansSystem bytes m other others → (sys ≡ other) × (names ≡ others) }
    ensures one_fault { (bytes : List ℕ) (m : Model) (f g : SortFault) → IsFirstFault bytes m f → IsFirstFault bytes m g → f ≡ g }
{}

/// The system that a tree means has names that fit it, no place of it stands under more than 64
/// binders, and it is well-sorted, where the file has fewer than 2^32 declarations.
pub fn meanings_are_well_sorted()
    ensures sorted { (bytes : List ℕ) (m : Model) (sys : System) (names : Names) → MeansSystem bytes m sys names → length m.decls < 2 ^ 32 → IsSystem sys }
    ensures depth { (bytes : List ℕ) (m : Model) (sys : System) (names : Names) → MeansSystem bytes m sys names → IsWithinDepth 64 sys }
    ensures names { (bytes : List ℕ) (m : Model) (sys : System) (names : Names) → MeansSystem bytes m sys names → NamesFit sys.sig (length sys.steps) names }
{}

/// A variable gets no sort, one, or two, by its uses and those of the variables that it is alike to.
pub fn sorts_are_decided()
    ensures { (uses : List Use) (v : ℕ) → ((s : ℕ) × GetsOnly uses v s) ⊎ GetsNone uses v ⊎ GetsTwo uses v }
{}

/// The names that a file declares are words that aren't reserved, and it has no more declarations
/// than tokens, where tokens of the text spell it. So a declared name that is no word or a reserved
/// one is a fault of trees alone that no text spells.
pub fn spelt_names_are_not_reserved()
    ensures names { (bytes : List ℕ) (tokens : List Token) (limits : Limits) (m : Model) → AreTokens bytes tokens → SpellsFile limits m.decls tokens → (n : Name) → IsDeclaredName (items_of bytes m.decls) n → IsName n.word }
    ensures few { (tokens : List Token) (limits : Limits) (m : Model) → SpellsFile limits m.decls tokens → length m.decls ≤ length tokens }
{}
