ghost use Rattle.std.specs.Prelude.{◌≡◌, IfOk};

use crate::job::Job;
use fo_core::{Seq, World};
use std::alloc::{AllocError, Global};
use up_diagram::Cube;

/// What a job needs, as it stood when the job was taken.
#[derive(Debug, Drop)]
pub struct Brief {
    /// The job.
    pub job: Job,
    /// The level of the obligation or the clause; of a look the frontier; of a trace the most steps
    /// of the run.
    pub level: u32,
    /// The cubes of the frame that is asked about: of the obligation's frame below, where its level
    /// is above 1, of the frontier's frame, or of the clause's frame.
    pub frame: Seq<Cube>,
    /// Of a look, the diagrams of the states that are obligations already.
    pub avoid: Seq<Cube>,
    /// Of a work, the world whose copy 0 is the obligation's state.
    pub world: Option<World>,
    /// Of a push, the clause's cube.
    pub cube: Option<Cube>,
}

fn copies_of(alloc: Global, cubes: &[Cube]) -> Result<Seq<Cube>, AllocError>
    ensures { IfOk result (λ copies. copies ≡ cubes.now) }
{
    let mut copies = Seq::new(alloc);
    'each: for cube in cubes {
        copies.push(cube.copy(alloc)?)?;
    }
    Ok(copies)
}

fn copy_of_world(alloc: Global, world: &Option<World>) -> Result<Option<World>, AllocError>
    ensures { IfOk result (λ copy. copy ≡ world.now) }
{
    Ok(match world {
        Some(world) => Some(world.copy(alloc)?),
        None => None,
    })
}

fn copy_of_cube(alloc: Global, cube: &Option<Cube>) -> Result<Option<Cube>, AllocError>
    ensures { IfOk result (λ copy. copy ≡ cube.now) }
{
    Ok(match cube {
        Some(cube) => Some(cube.copy(alloc)?),
        None => None,
    })
}

impl Brief {
    /// A copy.
    pub fn copy(&self, alloc: Global) -> Result<Brief, AllocError>
        ensures { IfOk result (λ x. x ≡ self.now) }
    {
        Ok(Brief {
            job: self.job,
            level: self.level,
            frame: copies_of(alloc, self.frame.as_slice())?,
            avoid: copies_of(alloc, self.avoid.as_slice())?,
            world: copy_of_world(alloc, &self.world)?,
            cube: copy_of_cube(alloc, &self.cube)?,
        })
    }
}
