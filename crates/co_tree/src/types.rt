use co_base::{AtomicKind, Span, Text};
use sqlite_items::Items;

/// Names with `::` between them [expr.prim.id.qual]. There is at least one. A path names a class exactly where its last name
/// names one.
#[derive(Drop)]
pub struct Path {
    pub names: Items<Text>,
    pub span: Span,
}

/// What a type is built on [dcl.type.simple].
#[derive(Drop)]
pub struct SimpleType {
    pub kind: SimpleTypeKind,
    pub span: Span,
}

#[derive(Drop)]
pub enum SimpleTypeKind {
    Void,
    Bool,
    Int,
    Long,
    Auto,
    /// `std::size_t`
    Size,
    /// `std::exception_ptr`
    ExceptionPtr,
    /// `std::suspend_always`
    SuspendAlways,
    /// `std::suspend_never`
    SuspendNever,
    /// `std::coroutine_handle<P>`, or `std::coroutine_handle<>`
    Handle(Option<Path>),
    /// `std::atomic<T>`
    Atomic(AtomicKind),
    /// A class by its path.
    Class(Path),
}

/// `&`, `&&`, or neither [dcl.ref].
#[derive(Clone, Copy)]
pub enum Reference {
    None,
    Lvalue,
    Rvalue,
}

/// A type [dcl.name]: `const` before and after what it is built on, the number of its `*`, and a reference.
#[derive(Drop)]
pub struct TypeId {
    pub is_const: bool,
    pub base: SimpleType,
    pub is_const_after: bool,
    pub pointers: u32,
    pub reference: Reference,
    pub span: Span,
}
