//! The numbers and sizes that lines declare.

/// A buffer or a pair is declared with this number, at this line.
#[derive(Clone, Copy, Drop)]
pub struct Numbered {
    pub number: u64,
    pub line: u32,
}

/// A buffer as its line declares it. Its length has no bound of its own.
#[derive(Clone, Copy, Drop)]
pub struct Size {
    pub operator: u32,
    pub len: u64,
    pub depth: u32,
}
