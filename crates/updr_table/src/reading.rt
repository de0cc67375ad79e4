ghost use Rattle.std.specs.Prelude.{◌≡◌, ◌≤◌, ℕ, List, IfOk};
ghost use Rattle.pv_base.specs.Reading.{IsContent};
ghost use Rattle.updr_told.specs.Stops.{IfRefused};
ghost use Rattle.updr_words.specs.Forms.{texts};
ghost use Rattle.updr_table.specs.Outside.{AreContents, RefusesFile, RefusesFirst, outside};
ghost use Rattle.updr_table.specs.Rows.{contents_of};

use pv_base::{Files, ReadFault};
use std::alloc::Global;
use updr_told::{Stop, Told};

/// The content of a file.
fn read_file<L, F: Files>(alloc: Global, files: &mut F, name: &str) -> Result<Vec<u8>, Stop<L>>
    ensures content { IfOk result (λ bytes. IsContent (F.contents files.old name.now) bytes.items) }
    ensures refused { IfRefused result (RefusesFile
        (outside F.contents F.faults F.refused files.old files.new)
        name.now) }
    ensures later { F.faults files.old ≤ F.faults files.new }
    ensures unchanged { (n : List ℕ) → F.contents files.new n ≡ F.contents files.old n }
{
    let mut bytes = Vec::new(alloc);
    match files.read(alloc, name, &mut bytes) {
        Ok(()) => Ok(bytes),
        Err(ReadFault::Failed) => Err(Stop::Refused(Told::cannot_read(alloc, name)?)),
        Err(ReadFault::TooLong) => Err(Stop::Refused(Told::is_longer(alloc, name)?)),
        Err(ReadFault::Memory) => Err(Stop::Memory),
    }
}

/// The contents of the files of these names, which are read in this order. The first that can't be
/// read, or is too long, is refused.
pub fn read_files<L: Drop, F: Files>(
    alloc: Global,
    files: &mut F,
    names: &[&str],
) -> Result<Vec<Vec<u8>>, Stop<L>>
    ensures contents { IfOk result (λ v. AreContents
        (outside F.contents F.faults F.refused files.old files.new)
        (texts names.now)
        (contents_of v.items)) }
    ensures refused { IfRefused result (RefusesFirst
        (outside F.contents F.faults F.refused files.old files.new)
        (texts names.now)) }
{
    let mut contents = Vec::new(alloc);
    'each: for name in names {
        let bytes = read_file(alloc, files, name)?;
        contents.push(bytes).map_err(|_| Stop::Memory)?;
    }
    Ok(contents)
}
