/// A piece of a text: the bytes from the place `from` on, up to and without the place `to`. Places count from 0.
#[derive(Clone, Copy, Debug, PartialEq, Eq)]
pub struct Span {
    pub from: u32,
    pub to: u32,
}
