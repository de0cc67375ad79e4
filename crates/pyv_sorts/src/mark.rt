ghost use Rattle.std.specs.Prelude.{◌≡◌};
ghost use Rattle.pyv_sorts.specs.Inferring.{add as add_of};

/// The sorts that a class of variables gets: none, one, or more.
#[derive(Clone, Copy)]
pub enum Mark {
    Nothing,
    One(u32),
    Two,
}

/// What is known of a class once one of its variables gets a sort.
pub fn add(mark: Mark, sort: u32) -> Mark
    ensures { result ≡ add_of mark sort }
{
    match mark {
        Mark::Nothing => Mark::One(sort),
        Mark::One(other) => {
            if other == sort {
                Mark::One(other)
            } else {
                Mark::Two
            }
        }
        Mark::Two => Mark::Two,
    }
}
