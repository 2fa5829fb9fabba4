//! One line of a picture in plain text.
use std::alloc::{AllocError, Global};

/// The most columns of a line.
pub const WIDTH: usize = 120;

/// The columns of a line, blank where nothing stands.
#[derive(Drop)]
pub struct Canvas {
    cells: [u8; 120],
}

impl Canvas {
    pub fn blank() -> Canvas {
        Canvas { cells: [b' '; 120] }
    }

    /// Puts the byte there, if the line has such a column.
    pub fn set(&mut self, at: usize, byte: u8) {
        if let Some(cell) = self.cells.get_mut(at) {
            *cell = byte;
        }
    }

    /// Puts the text there, cut off before column `end`.
    pub fn put(&mut self, at: usize, end: usize, text: &[u8]) {
        let mut column = at;
        for byte in text {
            if column >= end {
                return;
            }
            self.set(column, *byte);
            column = column.saturating_add(1);
        }
    }

    /// Puts dashes from one column on below another.
    pub fn rule(&mut self, from: usize, to: usize) {
        for column in from..to {
            self.set(column, b'-');
        }
    }

    /// The line with its end, and without the blanks before that.
    pub fn line(&self, alloc: Global) -> Result<Vec<u8>, AllocError> {
        let mut length = WIDTH;
        for _ in 0..WIDTH {
            if length == 0 || self.cells.get(length - 1) != Some(&b' ') {
                break;
            }
            length -= 1;
        }
        let mut line = Vec::new(alloc);
        for cell in self.cells.iter().take(length) {
            line.push(*cell)?;
        }
        line.push(b'\n')?;
        Ok(line)
    }
}
