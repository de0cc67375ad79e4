/// What a name stands for.
#[derive(Clone, Copy, Debug, PartialEq, Eq)]
pub enum Meaning {
    /// A variable: the byte place where it is bound, and how many binders stand above its own. A
    /// free variable is bound where it first occurs in its body.
    Variable(u32, u32),
    /// A symbol by its number.
    Symbol(u32),
    Unknown,
}

/// What an expression tells of the sort of a variable, which is known by the place where it is
/// bound.
#[derive(Clone, Copy, Debug, PartialEq, Eq)]
pub enum Use {
    /// The variable is bound.
    Binder(u32),
    /// The variable has the sort.
    Is(u32, u32),
    /// Two variables have one sort.
    Alike(u32, u32),
}

/// What gives a term its sort.
#[derive(Clone, Copy, Debug, PartialEq, Eq)]
pub enum Side {
    /// It is a variable.
    OfVariable(u32),
    /// It is an application, whose sort is declared.
    OfSort(u32),
    /// It is no term.
    Neither,
}
