//! Laws about embeddings, each the contract of a function that does nothing.

ghost use Rattle.std.specs.Prelude.{◌<◌, ℕ, List, [], length};
ghost use Rattle.fo_core.specs.declared.signature.Sig.{Sig};
ghost use Rattle.fo_core.specs.declared.formula.Formula.{Formula};
ghost use Rattle.fo_core.specs.declared.world.World.{World};
ghost use Rattle.fo_core.specs.Embedding.{IsEmbedding};
ghost use Rattle.fo_core.specs.Tables.{Fits};
ghost use Rattle.fo_core.specs.Truth.{Truth};
ghost use Rattle.fo_core.specs.Universal.{IsUniversalSentence};

/// A universal sentence that is true in a state is true in each state that embeds in it.
pub fn universal_sentences_pass_to_embedded_states()
    ensures { (sig : Sig) (v : World) (c : ℕ) (w : World) (d : ℕ) (maps : List (List ℕ)) →
        Fits sig v → c < length v.copies → IsEmbedding sig v c w d maps →
        (f : Formula) → IsUniversalSentence sig f → Truth sig w d f [] → Truth sig v c f [] }
{}
