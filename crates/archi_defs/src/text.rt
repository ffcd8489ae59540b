//! The content of an architecture's text. `archi_reader` makes it, and the commands take it apart.
use archi_graph::Archi;
use syn_base::{Items, Name};

/// A line `duration DEF OPERATOR TICKS`. The operator goes by its number.
#[derive(Drop)]
pub struct DurationLine {
    pub def: Name,
    pub operator: u32,
    /// 0 to 1,000,000,000.
    pub ticks: u32,
}

/// The version of the text, the architecture, and the durations as given.
pub struct ArchiText {
    /// 1, or 2 where the text may give the depth of the buffers.
    pub version: u32,
    pub archi: Archi,
    pub lines: Items<DurationLine>,
}

/// By hand, so that a proof walks through what it drops here alone, and not on each way out of each
/// function that owns one.
impl Drop for ArchiText {
    fn drop(self) {
        let ArchiText {
            version: _,
            archi: _,
            lines: _,
        } = self;
    }
}
