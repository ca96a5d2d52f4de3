use co_base::{ClassId, FuncId};

/// What a slot of a function holds.
#[derive(Clone, Copy, Debug, PartialEq, Eq)]
pub enum SlotKind {
    /// A parameter [dcl.fct].
    Param,
    /// A coroutine's copy of a parameter [dcl.fct.def.coroutine].
    Copy,
    /// A coroutine's promise object [dcl.fct.def.coroutine].
    Promise,
    /// A local variable, or the variable of a handler [stmt.dcl] [except.handle].
    Local,
    /// A temporary object of a full-expression, or a class parameter's object in its caller [class.temporary].
    Temp,
    /// A value that is kept while a coroutine is suspended.
    Held,
    /// Whether a temporary of a conditional operand has been made.
    Mark,
}

/// An act on `std::coroutine_handle` [coroutine.handle].
#[derive(Clone, Copy, Debug, PartialEq, Eq)]
pub enum HandleOp {
    /// `resume()` of a handle
    Resume,
    /// `destroy()` of a handle
    Destroy,
    /// `done()` of a handle
    Done,
    /// `promise()` of a handle: the promise's place
    Promise,
    /// `from_promise`, from the promise's place
    FromPromise,
    /// `address()` of a handle
    Address,
    /// `from_address`, from a `void*`: a handle of this promise's class, or a `std::coroutine_handle<>`
    FromAddress(Option<ClassId>),
    /// `std::noop_coroutine()`, from nothing
    Noop,
}

/// An act on a `std::atomic` [atomics.types.operations]. Its operands are the atomic's place and then values.
#[derive(Clone, Copy, Debug, PartialEq, Eq)]
pub enum AtomicOp {
    Load,
    Store,
    /// `exchange`
    Swap,
    /// `fetch_add`
    Add,
    /// `fetch_sub`
    Sub,
    /// `compare_exchange_strong`, whose second operand is the place of the expected value
    Cas,
}

/// A call of the library.
#[derive(Clone, Copy, Debug, PartialEq, Eq)]
pub enum LibOp {
    /// `corun::print` of a `long`
    Print,
    /// `corun::text` of a text literal: the operand is a constant, the number of the text
    Lit,
    /// `corun::post` of a handle
    Post,
    /// `corun::input` of a `long`
    Input,
    /// `corun::inputs`
    Inputs,
    /// `::operator new` of a number of bytes
    Take,
    /// `::operator delete` of a `void*`, and of a number of bytes or of nothing
    Give,
}

/// What `await_suspend` gives [expr.await].
#[derive(Clone, Copy, Debug, PartialEq, Eq)]
pub enum Answer {
    Void,
    Bool,
    Handle,
}

/// How storage is allocated: by the global `operator new`, or by one of a class that takes the number of bytes alone, or
/// also the coroutine's parameters [expr.new] [dcl.fct.def.coroutine].
#[derive(Clone, Copy, Debug, PartialEq, Eq)]
pub enum TakePlan {
    Global,
    Own(FuncId),
    OwnWith(FuncId),
}

/// How storage is released: by the global `operator delete`, or by one of a class that takes the pointer alone, or also the
/// number of bytes [expr.delete].
#[derive(Clone, Copy, Debug, PartialEq, Eq)]
pub enum GivePlan {
    Global,
    Own(FuncId),
    OwnSized(FuncId),
}

/// What a promise's class has for `co_return`: `return_void`, `return_value`, or neither [stmt.return.coroutine].
#[derive(Clone, Copy, Debug, PartialEq, Eq)]
pub enum Returns {
    Void(FuncId),
    Value,
    Neither,
}
