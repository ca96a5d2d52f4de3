ghost use Rattle.std.specs.Prelude.{◌≡◌, ◌<◌};
ghost use Rattle.std.specs.Option.{option_map};
ghost use Rattle.co_types.specs.Types.{head_of, target_of, same_type};
ghost use Rattle.co_core_typing.specs.Gives as spec;
ghost use Rattle.co_core_types.specs.Seen.{known_type, seen, seen_shape};

use co_base::{AtomicKind, ClassId, Num};
use co_types::{CoType, Head, has_same_head, is_same, is_same_num};

/// A type that stands in the tree or in a table, or one that does not.
#[derive(Clone, Copy)]
pub enum Known<'a> {
    Of(&'a CoType),
    Class(ClassId),
    Void,
}

/// The type of a value: its kind, and what it points or refers to.
#[derive(Clone, Copy)]
pub struct Kind<'a> {
    pub head: Head,
    pub target: Option<Known<'a>>,
}

/// What an expression gives: the place of an object of a type, a value of a type, or nothing; a `throw` stands for an
/// expression of any type. What parts with other types than their form needs give is wrong.
#[derive(Clone, Copy)]
pub enum View<'a> {
    Place(Known<'a>),
    Value(Kind<'a>),
    Nothing,
    Throws,
    Wrong,
}

impl<'a> Known<'a> {
    pub fn head(self) -> Head
        ensures { result ≡ head_of (known_type self.entry) }
    {
        match self {
            Known::Of(of) => of.head(),
            Known::Class(class) => Head::Class(class),
            Known::Void => Head::Void,
        }
    }

    pub fn target(self) -> Option<Known<'a>>
        ensures { option_map known_type result ≡ target_of (known_type self.entry) }
    {
        match self {
            Known::Of(of) => match of.target() {
                Some(to) => Some(Known::Of(to)),
                None => None,
            },
            Known::Class(_) | Known::Void => None,
        }
    }

    pub fn kind(self) -> Kind<'a>
        ensures { seen_shape result ≡ spec.shape_of (known_type self.entry) }
    {
        Kind {
            head: self.head(),
            target: self.target(),
        }
    }
}

/// Whether two types are one type.
#[tactic(auto, using(crate::proofs::Same::same))]
pub fn is_same_known(a: Known<'_>, b: Known<'_>) -> bool
    ensures { result ≡ same_type (known_type a.entry) (known_type b.entry) }
{
    match (a, b) {
        (Known::Of(x), Known::Of(y)) => is_same(x, y),
        (Known::Class(_), _) => has_same_head(a.head(), b.head()),
        (Known::Void, _) => has_same_head(a.head(), b.head()),
        (Known::Of(_), Known::Class(_)) => has_same_head(a.head(), b.head()),
        (Known::Of(_), Known::Void) => has_same_head(a.head(), b.head()),
    }
}

fn is_same_target(a: Option<Known<'_>>, b: Option<Known<'_>>) -> bool
    ensures { result ≡ spec.same_target (option_map known_type a.entry) (option_map known_type b.entry) }
{
    match (a, b) {
        (None, None) => true,
        (Some(x), Some(y)) => is_same_known(x, y),
        _ => false,
    }
}

pub fn is_same_kind(a: Kind<'_>, b: Kind<'_>) -> bool
    ensures { result ≡ spec.same_shape (seen_shape a.entry) (seen_shape b.entry) }
{
    has_same_head(a.head, b.head) && is_same_target(a.target, b.target)
}

pub fn plain_kind<'a>(head: Head) -> Kind<'a>
    ensures { seen_shape result ≡ spec.plain_shape head }
{
    Kind { head, target: None }
}

pub fn number<'a>(num: Num) -> View<'a>
    ensures { seen result ≡ spec.number num }
{
    View::Value(plain_kind(Head::Num(num)))
}

pub fn truth<'a>() -> View<'a>
    ensures { seen result ≡ spec.truth }
{
    number(Num::Bool)
}

pub fn pointer_kind(to: Known<'_>) -> Kind<'_>
    ensures { seen_shape result ≡ spec.pointer_shape (known_type to.entry) }
{
    Kind {
        head: Head::Pointer,
        target: Some(to),
    }
}

pub fn address_kind<'a>() -> Kind<'a>
    ensures { seen_shape result ≡ spec.address_shape }
{
    pointer_kind(Known::Void)
}

pub fn is_scalar(head: Head) -> bool
    ensures { result ≡ spec.is_scalar head }
{
    match head {
        Head::Void | Head::Class(_) | Head::Atomic(_) => false,
        _ => true,
    }
}

pub fn is_reference(head: Head) -> bool
    ensures { result ≡ spec.is_reference head }
{
    match head {
        Head::Ref | Head::ConstRef | Head::RefRef => true,
        _ => false,
    }
}

pub fn is_assignable(head: Head) -> bool
    ensures { result ≡ spec.is_assignable head }
{
    match head {
        Head::Num(_) | Head::Pointer | Head::Handle(_) | Head::ExceptionPtr => true,
        _ => false,
    }
}

pub fn is_nullable(head: Head) -> bool
    ensures { result ≡ spec.is_nullable head }
{
    match head {
        Head::Pointer | Head::Handle(_) | Head::ExceptionPtr => true,
        _ => false,
    }
}

pub fn is_pointer(head: Head) -> bool
    ensures { result ≡ spec.is_pointer head }
{
    match head {
        Head::Pointer => true,
        _ => false,
    }
}

pub fn is_handle(head: Head) -> bool
    ensures { result ≡ spec.is_handle head }
{
    match head {
        Head::Handle(_) => true,
        _ => false,
    }
}

pub fn is_null(head: Head) -> bool
    ensures { result ≡ spec.is_null head }
{
    match head {
        Head::NullPtr => true,
        _ => false,
    }
}

pub fn is_void(head: Head) -> bool
    ensures { result ≡ spec.is_void head }
{
    match head {
        Head::Void => true,
        _ => false,
    }
}

fn targets_void(target: Option<Known<'_>>) -> bool
    ensures { result ≡ spec.targets_void (option_map known_type target.entry) }
{
    match target {
        Some(to) => is_void(to.head()),
        None => false,
    }
}

pub fn is_address(of: Kind<'_>) -> bool
    ensures { result ≡ spec.is_address (seen_shape of.entry) }
{
    is_pointer(of.head) && targets_void(of.target)
}

fn widens(from: Head, to: Kind<'_>) -> bool
    ensures { result ≡ spec.widens from (seen_shape to.entry) }
{
    match from {
        Head::NullPtr => is_nullable(to.head),
        Head::Pointer => is_address(to),
        Head::Handle(_) => has_same_head(to.head, Head::Handle(None)),
        _ => false,
    }
}

/// Whether a value of the first type stands where one of the second is wanted [conv.ptr].
pub fn converts(from: Kind<'_>, to: Kind<'_>) -> bool
    ensures { result ≡ spec.converts (seen_shape from.entry) (seen_shape to.entry) }
{
    is_same_kind(from, to) || widens(from.head, to)
}

/// The value of a `std::atomic`.
pub fn plain<'a>(kind: AtomicKind) -> Kind<'a>
    ensures { seen_shape result ≡ spec.plain kind }
{
    match kind {
        AtomicKind::Int => plain_kind(Head::Num(Num::Int)),
        AtomicKind::Long => plain_kind(Head::Num(Num::Long)),
        AtomicKind::Bool => plain_kind(Head::Num(Num::Bool)),
        AtomicKind::VoidPointer => address_kind(),
    }
}

pub fn is_right(view: View<'_>) -> bool
    ensures { result ≡ spec.is_right (seen view.entry) }
{
    match view {
        View::Wrong => false,
        _ => true,
    }
}

fn is_number_head(num: Num, head: Head) -> bool
    ensures { result ≡ spec.is_number_head num head }
{
    match head {
        Head::Num(of) => is_same_num(num, of),
        _ => false,
    }
}

pub fn is_some_number_head(head: Head) -> bool
    ensures { result ≡ spec.is_some_number_head head }
{
    match head {
        Head::Num(_) => true,
        _ => false,
    }
}

/// Whether it is a value of this type of integers.
pub fn is_number(num: Num, view: View<'_>) -> bool
    ensures { result ≡ spec.is_number num (seen view.entry) }
{
    match view {
        View::Value(of) => is_number_head(num, of.head),
        _ => false,
    }
}

pub fn is_some_number(view: View<'_>) -> bool
    ensures { result ≡ spec.is_some_number (seen view.entry) }
{
    match view {
        View::Value(of) => is_some_number_head(of.head),
        _ => false,
    }
}

pub fn value_converts(to: Kind<'_>, view: View<'_>) -> bool
    ensures { result ≡ spec.value_converts (seen_shape to.entry) (seen view.entry) }
{
    match view {
        View::Value(of) => converts(of, to),
        View::Throws => true,
        View::Place(_) | View::Nothing | View::Wrong => false,
    }
}

pub fn is_place_of(to: Known<'_>, view: View<'_>) -> bool
    ensures { result ≡ spec.is_place_of (known_type to.entry) (seen view.entry) }
{
    match view {
        View::Place(of) => is_same_known(of, to),
        View::Throws => true,
        View::Value(_) | View::Nothing | View::Wrong => false,
    }
}

pub fn is_place_of_target(target: Option<Known<'_>>, view: View<'_>) -> bool
    ensures { result ≡ spec.is_place_of_target (option_map known_type target.entry) (seen view.entry) }
{
    match target {
        Some(to) => is_place_of(to, view),
        None => false,
    }
}
