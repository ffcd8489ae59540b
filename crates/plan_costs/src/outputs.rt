//! The outputs of all operations, numbered one after another, with how long media carry them.
use crate::numbers::{NEVER, NOBODY, date_at, number_at};
use durations::{Medium, Source, Vertex};
use std::alloc::Global;
use syn_base::{OutOfMemory, to_u32};

/// The outputs by number.
#[derive(Drop)]
pub struct Outputs {
    /// By operation the number of its first output, and one more at the end.
    firsts: Vec<u32>,
    /// By output the operation that makes it.
    makers: Vec<u32>,
    /// By output and medium how long it is carried.
    times: Vec<u64>,
    /// By output how long it is carried over a medium, in the mean of all media.
    means: Vec<u64>,
    /// How many media there are.
    media: u32,
}

impl Outputs {
    /// The outputs of these operations on these media.
    pub fn new(
        alloc: Global,
        vertices: &[Vertex],
        media: &[Medium],
    ) -> Result<Outputs, OutOfMemory> {
        let mut outputs = Outputs {
            firsts: Vec::new(alloc),
            makers: Vec::new(alloc),
            times: Vec::new(alloc),
            means: Vec::new(alloc),
            media: to_u32(media.len())?,
        };
        outputs.add_all(vertices, media)?;
        Ok(outputs)
    }

    /// Adds the outputs of these operations.
    fn add_all(&mut self, vertices: &[Vertex], media: &[Medium]) -> Result<(), OutOfMemory> {
        let mut op = 0u32;
        for vertex in vertices {
            self.firsts.push(to_u32(self.makers.len())?)?;
            self.add_outputs(op, vertex.outs.as_slice(), media)?;
            op = op.saturating_add(1);
        }
        self.firsts.push(to_u32(self.makers.len())?)?;
        Ok(())
    }

    /// Adds the outputs of an operation, which have these lengths.
    fn add_outputs(&mut self, op: u32, lens: &[u32], media: &[Medium]) -> Result<(), OutOfMemory> {
        for len in lens {
            self.makers.push(op)?;
            self.add_times(*len, media)?;
        }
        Ok(())
    }

    /// Adds how long each medium carries an output of this length, and the mean.
    fn add_times(&mut self, len: u32, media: &[Medium]) -> Result<(), OutOfMemory> {
        let mut total = 0u64;
        for medium in media {
            let elements = u64::from(medium.per).saturating_mul(u64::from(len));
            let time = u64::from(medium.fixed).saturating_add(elements);
            total = total.saturating_add(time);
            self.times.push(time)?;
        }
        self.means.push(total / u64::from(self.media.max(1)))?;
        Ok(())
    }

    /// How many outputs there are.
    pub fn len(&self) -> usize {
        self.makers.len()
    }

    /// The number of a source.
    pub fn number(&self, source: &Source) -> u32 {
        number_at(self.firsts.as_slice(), source.vertex).saturating_add(source.port)
    }

    /// The number of the first output of an operation.
    pub fn first(&self, op: u32) -> u32 {
        number_at(self.firsts.as_slice(), op)
    }

    /// The number after that of the last output of an operation.
    pub fn end(&self, op: u32) -> u32 {
        let next = number_at(self.firsts.as_slice(), op.saturating_add(1));
        if next == NOBODY { 0 } else { next }
    }

    /// The operation that makes an output.
    pub fn maker(&self, output: u32) -> u32 {
        number_at(self.makers.as_slice(), output)
    }

    /// How long a medium carries an output.
    pub fn time(&self, output: u32, medium: u32) -> u64 {
        let place = output.saturating_mul(self.media).saturating_add(medium);
        let time = date_at(self.times.as_slice(), place);
        if time == NEVER { 0 } else { time }
    }

    /// How long an output is carried over a medium, in the mean of all media.
    pub fn mean_time(&self, output: u32) -> u64 {
        let mean = date_at(self.means.as_slice(), output);
        if mean == NEVER { 0 } else { mean }
    }
}
