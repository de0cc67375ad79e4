/// Where an expression stands in its body, and what is asked of it there.
#[derive(Clone, Copy, Debug, PartialEq, Eq)]
pub struct Stand {
    /// Whether the body is a transition's, where `new` may stand.
    pub step: bool,
    /// Whether it stands inside `new`.
    pub ahead: bool,
    /// Whether a formula is asked; else a term is.
    pub formula: bool,
    /// Whether it is a term of a `distinct` past the sixteenth.
    pub over: bool,
}
