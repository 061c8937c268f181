//! Where a part of a list stands.

/// A part of a list, from `start` up to the place before `end`.
#[derive(Clone, Copy)]
pub struct ListSpan {
    /// The place of its first item.
    pub start: usize,
    /// One more than the place of its last item.
    pub end: usize,
}
