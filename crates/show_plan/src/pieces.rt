//! Words that flow into lines.

use crate::writing::{WIDTH, columns, push_spaces};
use texts::Words;

/// A line that words fill. Further words go to a new line.
#[derive(Clone, Copy)]
pub struct Flow {
    indent: usize,
    column: usize,
}

impl Flow {
    /// A line filled up to its indent.
    pub fn new(indent: usize) -> Flow {
        Flow {
            indent,
            column: indent,
        }
    }

    /// Adds a word after a gap of spaces.
    pub fn push(&mut self, out: &mut Words, word: &[u8], gap: usize) {
        let wide = columns(word);
        let end = self.column.saturating_add(gap).saturating_add(wide);
        if self.column > self.indent && end > WIDTH {
            out.byte(b'\n');
            push_spaces(out, self.indent);
            self.column = self.indent;
        } else if self.column > self.indent {
            push_spaces(out, gap);
            self.column = self.column.saturating_add(gap);
        }
        out.text(word);
        self.column = self.column.saturating_add(wide);
    }
}
