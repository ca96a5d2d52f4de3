use crate::ids::ClassId;

/// A type of integers: `bool`, `int` of 32 bits, `long` of 64 bits, `std::size_t` of 64 bits.
#[derive(Clone, Copy, Debug, PartialEq, Eq)]
pub enum Num {
    Bool,
    Int,
    Long,
    Size,
}

/// An operator on two integers.
#[derive(Clone, Copy, Debug, PartialEq, Eq)]
pub enum Op {
    Add,
    Sub,
    Mul,
    Div,
    Rem,
    Shl,
    Shr,
    And,
    Or,
    Xor,
    Lt,
    Le,
    Gt,
    Ge,
    Eq,
    Ne,
}

/// A kind of undefined act. `docs/LANGUAGE.md` says what each is.
#[derive(Clone, Copy, Debug, PartialEq, Eq)]
pub enum Undef {
    U1,
    U2,
    U3,
    U4,
    U5,
    U6,
    U7,
    U8,
    U9,
    U10,
    U11,
    U12,
}

/// A limit of a run that a worker can meet.
#[derive(Clone, Copy, Debug, PartialEq, Eq)]
pub enum Limit {
    Store,
    Control,
    Board,
    Prints,
    Stack,
    Handled,
}

/// The `T` of a `std::atomic<T>`.
#[derive(Clone, Copy, Debug, PartialEq, Eq)]
pub enum AtomicKind {
    Int,
    Long,
    Bool,
    VoidPointer,
}

/// What a handler catches: `...`, or values of one type.
#[derive(Clone, Copy, Debug, PartialEq, Eq)]
pub enum CatchOf {
    Any,
    Int,
    Long,
    Bool,
    Class(ClassId),
}

/// One print of a run: a number, or the text literal of that number.
#[derive(Clone, Copy, Debug, PartialEq, Eq)]
pub enum Print {
    Num(i64),
    Lit(u32),
}

/// What a run has counted.
#[derive(Clone, Copy, Debug, PartialEq, Eq)]
pub struct Counts {
    pub instructions: u64,
    pub frames_made: u64,
    pub frames_ended: u64,
    pub born: u64,
    pub died: u64,
}

/// A thrown value, or none. The members that a class doesn't have are 0.
#[derive(Clone, Copy, Debug, PartialEq, Eq)]
pub enum Thrown {
    Int(i64),
    Long(i64),
    Bool(bool),
    Class(ClassId, i64, i64, i64),
    None,
}
