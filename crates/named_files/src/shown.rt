//! A path in a line that says what is wrong with it.
use std::fmt::{self, Display, Formatter, Write};

/// How many characters of a path a line has room for, and how many of a longer one's end it shows.
const MOST: usize = 44;

const END: usize = 42;

/// A path as a line names it: of a long one the end, behind `..`, which tells it from others.
#[derive(Clone, Copy)]
pub struct ShownPath<'a>(pub &'a str);

impl Display for ShownPath<'_> {
    fn fmt<W: Write>(&self, f: &mut Formatter<W>) -> fmt::Result {
        let length = self.0.chars().count();
        if length <= MOST {
            return f.write_str(self.0);
        }
        f.write_str("..")?;
        for letter in self.0.chars().skip(length.saturating_sub(END)) {
            f.write_char(letter)?;
        }
        Ok(())
    }
}
