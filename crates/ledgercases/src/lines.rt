// The lines that are to be printed.
use std::alloc::{AllocError, Global};
use std::fmt;

#[derive(Drop)]
pub struct Lines {
    heap: Global,
    lines: Vec<String>,
}

impl Lines {
    pub fn new(heap: Global) -> Lines {
        Lines {
            heap,
            lines: Vec::new(heap),
        }
    }

    // What the lines are allocated from.
    pub fn heap(&self) -> Global {
        self.heap
    }

    // One more line, of what this prints.
    pub fn say<D: fmt::Display>(&mut self, what: &D) -> Result<(), AllocError> {
        self.lines.push(format!(in self.heap; "{what}")?)?;
        Ok(())
    }

    pub fn as_slice(&self) -> &[String] {
        self.lines.as_slice()
    }
}
