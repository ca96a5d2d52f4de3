ghost use Rattle.std.specs.Prelude.{◌≡◌, IfOk};
ghost use Rattle.std.specs.Option.{option_copied};
ghost use Rattle.co_types.specs.Types.{head_of, same_atomic, same_head, same_num, same_type, target_of};

use co_base::{AtomicKind, ClassId, NoMemory, Num};
use sqlite_items::Boxed;
use std::alloc::Global;

/// A type [basic.types]. `const` is kept only in `const T&`.
#[derive(Debug, Drop)]
pub enum CoType {
    Void,
    Num(Num),
    Class(ClassId),
    /// `T*`
    Pointer(Boxed<CoType>),
    /// `T&`
    Ref(Boxed<CoType>),
    /// `const T&`
    ConstRef(Boxed<CoType>),
    /// `T&&`
    RefRef(Boxed<CoType>),
    /// `std::coroutine_handle<P>` of a promise's class, or `std::coroutine_handle<>`
    Handle(Option<ClassId>),
    /// `std::atomic<T>`
    Atomic(AtomicKind),
    /// `std::exception_ptr`
    ExceptionPtr,
    /// `std::suspend_always`
    SuspendAlways,
    /// `std::suspend_never`
    SuspendNever,
    /// `std::nullptr_t`
    NullPtr,
}

/// A type without what a pointer of it points to or a reference of it refers to.
#[derive(Clone, Copy, Debug, PartialEq, Eq)]
pub enum Head {
    Void,
    Num(Num),
    Class(ClassId),
    Pointer,
    Ref,
    ConstRef,
    RefRef,
    Handle(Option<ClassId>),
    Atomic(AtomicKind),
    ExceptionPtr,
    SuspendAlways,
    SuspendNever,
    NullPtr,
}

impl CoType {
    #[tactic(auto, using(crate::proofs::Opening::opened))]
    pub fn head(&self) -> Head
        ensures { result ≡ head_of self.now }
    {
        match self {
            CoType::Void => Head::Void,
            CoType::Num(num) => Head::Num(*num),
            CoType::Class(class) => Head::Class(*class),
            CoType::Pointer(_) => Head::Pointer,
            CoType::Ref(_) => Head::Ref,
            CoType::ConstRef(_) => Head::ConstRef,
            CoType::RefRef(_) => Head::RefRef,
            CoType::Handle(promise) => Head::Handle(*promise),
            CoType::Atomic(kind) => Head::Atomic(*kind),
            CoType::ExceptionPtr => Head::ExceptionPtr,
            CoType::SuspendAlways => Head::SuspendAlways,
            CoType::SuspendNever => Head::SuspendNever,
            CoType::NullPtr => Head::NullPtr,
        }
    }

    /// What a pointer points to, or a reference refers to.
    #[tactic(auto, using(crate::proofs::Opening::opened))]
    pub fn target(&self) -> Option<&CoType>
        ensures { option_copied result ≡ target_of self.now }
    {
        match self {
            CoType::Pointer(to) => Some(to.get()),
            CoType::Ref(to) => Some(to.get()),
            CoType::ConstRef(to) => Some(to.get()),
            CoType::RefRef(to) => Some(to.get()),
            CoType::Void
            | CoType::Num(_)
            | CoType::Class(_)
            | CoType::Handle(_)
            | CoType::Atomic(_)
            | CoType::ExceptionPtr
            | CoType::SuspendAlways
            | CoType::SuspendNever
            | CoType::NullPtr => None,
        }
    }

    /// A type that is equal to this one.
    pub fn copy(&self, alloc: Global) -> Result<CoType, NoMemory>
        ensures { IfOk result (λ t. t ≡ self.now) }
    {
        match self {
            CoType::Void => Ok(CoType::Void),
            CoType::Num(num) => Ok(CoType::Num(*num)),
            CoType::Class(class) => Ok(CoType::Class(*class)),
            CoType::Pointer(to) => {
                let to = to.get().copy(alloc)?;
                let to = Boxed::new(alloc, to)?;
                Ok(CoType::Pointer(to))
            }
            CoType::Ref(to) => {
                let to = to.get().copy(alloc)?;
                let to = Boxed::new(alloc, to)?;
                Ok(CoType::Ref(to))
            }
            CoType::ConstRef(to) => {
                let to = to.get().copy(alloc)?;
                let to = Boxed::new(alloc, to)?;
                Ok(CoType::ConstRef(to))
            }
            CoType::RefRef(to) => {
                let to = to.get().copy(alloc)?;
                let to = Boxed::new(alloc, to)?;
                Ok(CoType::RefRef(to))
            }
            CoType::Handle(promise) => Ok(CoType::Handle(*promise)),
            CoType::Atomic(kind) => Ok(CoType::Atomic(*kind)),
            CoType::ExceptionPtr => Ok(CoType::ExceptionPtr),
            CoType::SuspendAlways => Ok(CoType::SuspendAlways),
            CoType::SuspendNever => Ok(CoType::SuspendNever),
            CoType::NullPtr => Ok(CoType::NullPtr),
        }
    }
}

/// Whether two kinds of numbers are one kind.
pub fn is_same_num(a: Num, b: Num) -> bool
    ensures { result ≡ same_num a b }
{
    match (a, b) {
        (Num::Bool, Num::Bool) => true,
        (Num::Int, Num::Int) => true,
        (Num::Long, Num::Long) => true,
        (Num::Size, Num::Size) => true,
        _ => false,
    }
}

fn is_same_atomic(a: AtomicKind, b: AtomicKind) -> bool
    ensures { result ≡ same_atomic a b }
{
    match (a, b) {
        (AtomicKind::Int, AtomicKind::Int) => true,
        (AtomicKind::Long, AtomicKind::Long) => true,
        (AtomicKind::Bool, AtomicKind::Bool) => true,
        (AtomicKind::VoidPointer, AtomicKind::VoidPointer) => true,
        _ => false,
    }
}

/// Whether two types are so but for what they point or refer to.
pub fn has_same_head(a: Head, b: Head) -> bool
    ensures { result ≡ same_head a b }
{
    match (a, b) {
        (Head::Void, Head::Void) => true,
        (Head::Num(x), Head::Num(y)) => is_same_num(x, y),
        (Head::Class(x), Head::Class(y)) => x.0 == y.0,
        (Head::Pointer, Head::Pointer) => true,
        (Head::Ref, Head::Ref) => true,
        (Head::ConstRef, Head::ConstRef) => true,
        (Head::RefRef, Head::RefRef) => true,
        (Head::Handle(None), Head::Handle(None)) => true,
        (Head::Handle(Some(x)), Head::Handle(Some(y))) => x.0 == y.0,
        (Head::Atomic(x), Head::Atomic(y)) => is_same_atomic(x, y),
        (Head::ExceptionPtr, Head::ExceptionPtr) => true,
        (Head::SuspendAlways, Head::SuspendAlways) => true,
        (Head::SuspendNever, Head::SuspendNever) => true,
        (Head::NullPtr, Head::NullPtr) => true,
        _ => false,
    }
}

/// Whether two types are one type.
#[tactic(auto, using(crate::proofs::Opening::opened))]
pub fn is_same(a: &CoType, b: &CoType) -> bool
    ensures { result ≡ same_type a.now b.now }
{
    if !has_same_head(a.head(), b.head()) {
        return false;
    }
    let Some(to) = b.target() else {
        return true;
    };
    match a {
        CoType::Pointer(of) => is_same(of.get(), to),
        CoType::Ref(of) => is_same(of.get(), to),
        CoType::ConstRef(of) => is_same(of.get(), to),
        CoType::RefRef(of) => is_same(of.get(), to),
        CoType::Void
        | CoType::Num(_)
        | CoType::Class(_)
        | CoType::Handle(_)
        | CoType::Atomic(_)
        | CoType::ExceptionPtr
        | CoType::SuspendAlways
        | CoType::SuspendNever
        | CoType::NullPtr => true,
    }
}
