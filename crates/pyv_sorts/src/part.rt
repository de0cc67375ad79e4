use crate::placed::Placed;

/// Names that stand in a part of a body which is closed by itself.
#[derive(Drop)]
pub struct Part<'a> {
    pub names: Vec<Placed<'a>>,
}
