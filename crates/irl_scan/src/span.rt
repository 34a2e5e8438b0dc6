/// Bytes of a page, from the place `start` up to the place `end`, which isn't among them. Places are counted from 0.
#[derive(Clone, Copy, Debug, PartialEq, Eq)]
pub struct Span {
    /// Where the first byte stands.
    pub start: u32,
    /// Where the byte behind the last one stands.
    pub end: u32,
}
