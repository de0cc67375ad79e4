ghost use Rattle.std.specs.Prelude.{◌≡◌, ◌≤◌, ℕ, List, Option, OnOk, OnErr};
ghost use Rattle.pv_base.specs.Counts.{Rose};
ghost use Rattle.pv_base.specs.Written.{Appends, AppendsPrefix};

/// A put failed.
#[derive(Debug, Drop)]
pub struct Failed;

/// What bytes go to.
pub trait Sink {
    /// The bytes that went in, where they are told.
    ghost written: { Self → Option (List ℕ) };

    /// How many puts failed.
    ghost faults: { Self → ℕ };

    /// Appends all of the bytes. The count of faults never falls.
    ///
    /// # Errors
    ///
    /// `Failed` comes only where the count of faults rose in this call. A prefix of the bytes was appended then,
    /// all or none of them included.
    fn put(&mut self, bytes: &[u8]) -> Result<(), Failed>
        ensures whole { OnOk result (Appends (written self.old) bytes.now (written self.new)) }
        ensures quiet { OnOk result (faults self.new ≡ faults self.old) }
        ensures prefix { OnErr result (AppendsPrefix (written self.old) bytes.now (written self.new)) }
        ensures later { faults self.old ≤ faults self.new }
        ensures failed { OnErr result (Rose (faults self.old) (faults self.new)) };
}
