use crate::placed::Placed;

/// A variable in scope, and what its name stands for outside: the variable that it hides, by the
/// place where it is bound and its level.
#[derive(Clone, Copy)]
pub struct Entry<'a> {
    pub name: Placed<'a>,
    pub hidden: Option<(u32, u32)>,
}
