/// A place in a source file: a line and a column, each counted from 1, the column in bytes. 0:0 is no place of a file.
#[derive(Clone, Copy, Debug, PartialEq, Eq)]
pub struct Span {
    pub line: u32,
    pub col: u32,
}
