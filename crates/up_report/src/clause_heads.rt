ghost use Rattle.std.specs.Prelude.{◌≡◌};
ghost use Rattle.up_report.specs.ClauseReading.{is_nothing as is_nothing_of, is_forall as is_forall_of};

/// What a part of a clause begins with. It decides how the part is read on.
#[derive(Debug, Clone, Copy)]
pub enum Head {
    /// The variables of the clause follow.
    Forall,
    /// The clause denies nothing, and its line ends.
    Nothing,
    /// This variable is one of two that aren't to differ.
    Equal(u32),
    /// A fact, which holds where the sign is true, or a function's value: of this symbol. The last
    /// field tells of a symbol without anything after it whether the line ends.
    Applied(bool, u32, bool),
}

/// The texts one of which ends a variable's number or a name.
#[derive(Debug, Clone, Copy)]
pub enum Ending {
    /// Another argument follows.
    Argument,
    /// No argument follows.
    LastArgument,
    /// Another denial follows, or the line ends.
    Denial,
    /// The variable that is to be equal follows.
    Equality,
    /// The arguments of a symbol follow.
    Arguments,
    /// The value that a constant is not to have follows.
    Unequal,
    /// No variable follows the one whose sort this is, or another one does.
    Sort,
    /// No variable can follow.
    LastSort,
}

/// Whether the clause denies nothing.
pub fn is_nothing(head: Head) -> bool
    ensures { result ≡ is_nothing_of head }
{
    matches!(head, Head::Nothing)
}

/// Whether the clause's variables follow.
pub fn is_forall(head: Head) -> bool
    ensures { result ≡ is_forall_of head }
{
    matches!(head, Head::Forall)
}
