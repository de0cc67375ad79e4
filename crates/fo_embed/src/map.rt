ghost use Rattle.std.specs.Prelude.{◌≡◌, IfOk};

use fo_core::Seq;
use std::alloc::{AllocError, Global};

/// A map of the elements of one world to those of another, sort by sort: for each sort the list of
/// the images of its elements 0, 1 and so on.
#[derive(Debug, Drop)]
pub struct Map {
    pub images: Seq<Seq<u32>>,
}

impl Map {
    /// A copy.
    pub fn copy(&self, alloc: Global) -> Result<Map, AllocError>
        ensures { IfOk result (λ m. m ≡ self.now) }
    {
        let mut images = Seq::new(alloc);
        'each: for list in self.images.as_slice() {
            images.push(list.copy(alloc)?)?;
        }
        Ok(Map { images })
    }
}
