//! A section of a text.

/// How the last line of a section begins.
#[derive(Clone, Copy, Debug)]
pub enum End {
    /// With `.end`.
    Blif,
    /// With `.e` or `.end`.
    Kiss,
}

/// A section: the lines from `first` up to the one before `past`. The next section may begin at `next`.
#[derive(Clone, Copy, Debug)]
pub struct Section {
    /// The place of its first line.
    pub first: usize,
    /// The place after its last line.
    pub past: usize,
    /// The place after the line that ends it, or after the last line of the text.
    pub next: usize,
}
