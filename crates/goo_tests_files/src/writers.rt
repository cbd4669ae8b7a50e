//! A writer that fails.

use std::io::{self, Write};

/// A writer that takes one byte a call, and so many in all.
#[derive(Drop)]
pub struct ShortWriter {
    /// What it took.
    pub text: Vec<u8>,
    /// How many bytes it takes.
    pub room: usize,
}

impl Write for ShortWriter {
    fn write(&mut self, text: &[u8]) -> io::Result<usize> {
        match text.first() {
            Some(first) if self.text.len() < self.room => {
                self.text.push(*first)?;
                Ok(1)
            }
            _ => Err(io::Error::from(io::ErrorKind::BrokenPipe)),
        }
    }

    fn flush(&mut self) -> io::Result<()> {
        Ok(())
    }
}
