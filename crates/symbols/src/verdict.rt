// The verdict on a line.

// What Parse says of a line that it isn't refused: whether it is accepted, and how many links the graph has at the end.
#[derive(Clone, Copy, Debug, PartialEq, Eq)]
pub struct Verdict {
    pub accepts: bool,
    pub links: usize,
}
