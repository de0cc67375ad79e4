/// A name where it stands: the byte place of its token, and its bytes.
#[derive(Clone, Copy)]
pub struct Placed<'a> {
    pub place: u32,
    pub word: &'a [u8],
}
