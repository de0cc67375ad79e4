ghost use Rattle.std.specs.Prelude.{◌≡◌, ◌++◌, ◌^◌, ◌<◌, ◌≤◌, ℕ, List, length, drop, IfOk, OnOk, OnErr};
ghost use Rattle.fo_core.specs.declared.world.World.{World};
ghost use Rattle.fo_core.specs.Sorted.{IsSig};
ghost use Rattle.fo_text.specs.Texts.{NamesEach, HasText, text_of, StopsAt};
ghost use Rattle.fo_text.specs.Reading.{Gives, world_of_copies_at};
ghost use Rattle.fo_text.specs.Answers.{IsUnlessMemory, IfBad};

use crate::fault::TextFault;
use crate::halt::Halt;
use crate::reading::{read_copied_world, read_world};
use fo_core::{Names, Sig, World};
use std::alloc::Global;

/// Reads the text of a world from the place `at` on, and moves `at` behind it. Other bytes may follow.
///
/// The signature has to be well-sorted, with a name for each sort and symbol. The bytes have to be
/// fewer than 2^32, and `at` at most their number. `TextFault::Bad` gives the first byte at which no
/// world's text goes on, which is the number of the bytes where they end too early. After an error
/// `at` is unchanged. Memory is taken for what was read, and not for what the text announces.
pub fn world_read(
    alloc: Global,
    sig: &Sig,
    names: &Names,
    bytes: &[u8],
    at: &mut usize,
) -> Result<World, TextFault>
    requires signature { IsSig sig.now }
    requires named { NamesEach sig.now names.now }
    requires short { length bytes.now < 2 ^ 32 }
    requires within { at.old ≤ length bytes.now }

    // What is taken is the text of the answer, a world that fits, and `at` stands behind it.
    ensures fits { IfOk result (HasText sig.now) }
    ensures taken { IfOk result (λ w. drop at.old bytes.now ≡ text_of sig.now names.now w ++ drop at.new bytes.now) }
    ensures behind { OnOk result ((at.old ≤ at.new) × (at.new ≤ length bytes.now)) }

    // The text of each world that has one is taken.
    ensures only { (w : World) (rest : List ℕ) → HasText sig.now w → drop at.old bytes.now ≡ text_of sig.now names.now w ++ rest → IsUnlessMemory w result }

    // A fault is the first one, and leaves the place as it was.
    ensures bad { IfBad result (StopsAt sig.now names.now bytes.now at.old) }
    ensures err { OnErr result (at.new ≡ at.old) }
{
    let front = &bytes[*at..];
    match read_world(alloc, sig, names, front) {
        Ok((world, rest)) => {
            *at = bytes.len() - rest.len();
            Ok(world)
        }
        Err(Halt::Memory) => Err(TextFault::Memory),
        Err(Halt::Fault(left)) => Err(TextFault::Bad((bytes.len() - left) as u32)),
    }
}

/// Reads the text of a world with this number of copies from the front of the bytes, as a part of a
/// longer text. It answers the world and what stands after its text.
///
/// The signature has to be well-sorted, with a name for each sort and symbol. A fault tells how many
/// bytes are left at the first one by which the text of no such world goes on. Memory is taken for what
/// was read, and not for what the text announces.
pub fn world_of_copies<'a>(
    alloc: Global,
    sig: &Sig,
    names: &Names,
    copies: u32,
    bytes: &'a [u8],
) -> Result<(World, &'a [u8]), Halt>
    requires signature { IsSig sig.now }
    requires named { NamesEach sig.now names.now }
    ensures { Gives (λ x. (x.0, x.1.now)) result (world_of_copies_at sig.now names.now copies bytes.now) }
{
    read_copied_world(alloc, sig, names, copies, bytes)
}
