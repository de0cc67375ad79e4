//! Laws about cubes, each the contract of a function that does nothing.

ghost use Rattle.std.specs.Prelude.{◌≡◌, ◌↔◌, ◌+◌, ◌<◌, ℕ, List, [], length};
ghost use Rattle.fo_core.specs.declared.signature.Sig.{Sig};
ghost use Rattle.fo_core.specs.declared.world.World.{World};
ghost use Rattle.fo_core.specs.Embedding.{IsEmbedding};
ghost use Rattle.fo_core.specs.Sorted.{IsFormula};
ghost use Rattle.fo_core.specs.Tables.{Fits};
ghost use Rattle.fo_core.specs.Truth.{Truth};
ghost use Rattle.fo_core.specs.Universal.{IsUniversalSentence};
ghost use Rattle.up_diagram.specs.declared.cube.Cube.{Cube};
ghost use Rattle.up_diagram.specs.Cubes.{Meets, IsCube, HasPlaces, without};
ghost use Rattle.up_diagram.specs.Covers.{Covers};
ghost use Rattle.up_diagram.specs.Claims.{claim, clause};
ghost use Rattle.up_diagram.specs.Diagrams.{diagram};

/// Whatever meets a cube meets each cube that covers it.
pub fn covers_are_met()
    ensures { (sig : Sig) (w : World) (c : ℕ) (d e : Cube) →
        Covers d e → Meets sig w c e → Meets sig w c d }
{}

/// A cube without a literal covers the cube. So whatever meets the cube meets it without the
/// literal.
pub fn less_is_met()
    ensures covers { (cube : Cube) (k : ℕ) → HasPlaces cube → Covers (without cube k) cube }
    ensures met { (sig : Sig) (w : World) (c : ℕ) (cube : Cube) (k : ℕ) →
        HasPlaces cube → Meets sig w c cube → Meets sig w c (without cube k) }
{}

/// The claim of a cube about copy `k` says that the copy meets it, and the clause that it doesn't.
pub fn sentences_say_what_is_met()
    ensures claim { (sig : Sig) (w : World) (c k : ℕ) (cube : Cube) →
        Truth sig w c (claim sig cube k) [] ↔ Meets sig w (c + k) cube }
    ensures clause { (sig : Sig) (w : World) (c k : ℕ) (cube : Cube) →
        Truth sig w c (clause sig cube k) [] ↔ (¬ Meets sig w (c + k) cube) }
{}

/// The sentences of a well-sorted cube about copy `k` are closed, well-sorted, and speak of copies
/// up to it. The clause about copy 0 is a universal sentence.
pub fn sentences_are_well_sorted()
    ensures claim { (sig : Sig) (cube : Cube) (k : ℕ) →
        IsCube sig cube → IsFormula sig (k + 1) (claim sig cube k) [] }
    ensures clause { (sig : Sig) (cube : Cube) (k : ℕ) →
        IsCube sig cube → IsFormula sig (k + 1) (clause sig cube k) [] }
    ensures universal { (sig : Sig) (cube : Cube) →
        IsCube sig cube → IsUniversalSentence sig (clause sig cube 0) }
{}

/// A state meets the diagram of a copy of a world exactly where some maps embed the copy in the
/// state.
pub fn diagram_is_met_where_embedded()
    ensures { (sig : Sig) (w v : World) (c d : ℕ) →
        Fits sig w → c < length w.copies →
        Fits sig v → d < length v.copies →
        Meets sig v d (diagram sig w c) ↔ ((maps : List (List ℕ)) × IsEmbedding sig w c v d maps) }
{}

/// Each copy of a world embeds in itself. So it meets its own diagram.
pub fn a_world_meets_its_own_diagram()
    ensures embeds { (sig : Sig) (w : World) (c : ℕ) →
        Fits sig w → c < length w.copies → (maps : List (List ℕ)) × IsEmbedding sig w c w c maps }
    ensures met { (sig : Sig) (w : World) (c : ℕ) →
        Fits sig w → c < length w.copies → Meets sig w c (diagram sig w c) }
{}
