//! Operations that show a violation.

/// A read and a write that it sees.
#[derive(Clone, Copy)]
pub struct Pair {
    pub read: usize,
    pub write: usize,
}

/// A read, its source, and another write of its register that it sees.
#[derive(Clone, Copy)]
pub struct Rivals {
    pub read: usize,
    pub source: usize,
    pub rival: usize,
}
