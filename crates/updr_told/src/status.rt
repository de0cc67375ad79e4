ghost use Rattle.std.specs.Prelude.{◌≡◌};
ghost use Rattle.updr_told.specs.Statuses.{number_of};

/// What a call comes to: an answer, which prints a text, or a refusal, which says one line.
#[derive(Clone, Copy, Debug, PartialEq, Eq)]
pub enum Status {
    /// What was asked about holds: a claim, or properties; or nothing that violates them was found.
    Holds,
    /// A violating run was found.
    Unsafe,
    /// There is no universal invariant, and no violating run that a search could find.
    NoUniversal,
    /// A search came to the last frame that it may open.
    Bounded,
    /// A search spent its steps.
    Spent,
    /// A query is above its limit.
    Over,
    /// What a report claims doesn't hold.
    Wrong,
    /// The properties aren't inductive.
    NotInductive,
    /// A report claims nothing that can be checked.
    NothingToCheck,
    /// The words are no command.
    Usage,
    /// A file can't be read, or is too long.
    ReadFault,
    /// A model isn't of the form of the language.
    NotRead,
    /// A model's text means no system.
    Sorts,
    /// A system isn't stratified for what is asked.
    NotStratified,
    /// A put failed.
    WriteFault,
    /// Memory was refused.
    OutOfMemory,
    /// A model uses a part of the language that is left out.
    Unsupported,
    /// A report isn't of the form of reports.
    ReportNotRead,
}

impl Status {
    /// The number that the program ends with. Those of answers are below 10.
    pub fn number(self) -> u8
        ensures { result ≡ number_of self }
    {
        match self {
            Status::Holds => 0,
            Status::Unsafe => 1,
            Status::NoUniversal => 2,
            Status::Bounded => 3,
            Status::Spent => 4,
            Status::Over => 5,
            Status::Wrong => 6,
            Status::NotInductive => 7,
            Status::NothingToCheck => 8,
            Status::Usage => 10,
            Status::ReadFault => 11,
            Status::NotRead => 12,
            Status::Sorts => 13,
            Status::NotStratified => 14,
            Status::WriteFault => 15,
            Status::OutOfMemory => 16,
            Status::Unsupported => 17,
            Status::ReportNotRead => 18,
        }
    }
}
