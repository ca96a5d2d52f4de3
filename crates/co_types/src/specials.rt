ghost use Rattle.std.specs.Prelude.{◌≡◌};
ghost use Rattle.co_types.specs.Types.{target_of};
ghost use Rattle.co_types.specs.Special as spec;
ghost use Rattle.co_types.specs.Special.{all_allow, both, is_usable, with_fields};

use crate::classes::{ClassInfo, FieldInfo, FuncInfo};
use crate::members::is_destructor;
use crate::table::ClassTable;
use crate::types::{CoType, Head, has_same_head};
use co_base::ClassId;

/// Whether an object of a class can be default-constructed, copied and moved, whether its end does nothing, and
/// whether the class is an aggregate [special] [dcl.init.aggr].
#[derive(Clone, Copy, Debug, PartialEq, Eq)]
pub struct Specials {
    pub can_default: bool,
    pub can_copy: bool,
    pub can_move: bool,
    pub trivial_end: bool,
    pub aggregate: bool,
}

/// What the fields of a class allow its implicit special members to do.
#[derive(Clone, Copy, Debug)]
pub(crate) struct Allowed {
    can_default: bool,
    can_copy: bool,
    can_move: bool,
    trivial_end: bool,
}

/// A kind of special member, or of constructor, that a class may declare.
#[derive(Clone, Copy, Debug)]
pub(crate) enum Member {
    Constructor,
    Default,
    /// `T(T&)` or `T(const T&)`
    Copy,
    /// `T(const T&)`, which takes rvalues too
    ConstCopy,
    /// `T(T&&)`
    Move,
    Destructor,
    /// A destructor with a body of its own
    WrittenDestructor,
}

const NOTHING: Specials = Specials {
    can_default: false,
    can_copy: false,
    can_move: false,
    trivial_end: false,
    aggregate: false,
};

const ALL: Allowed = Allowed {
    can_default: true,
    can_copy: true,
    can_move: true,
    trivial_end: true,
};

/// The specials of a class of the table [special]. Each class of which it contains an object, directly or through its
/// fields, has to be in the table, and none of them may contain an object of its own class: then they are what
/// `special_recurs` says. It takes no memory.
pub fn special(table: &ClassTable, class: ClassId) -> Specials
    ensures { result ≡ spec.special table.now class }
{
    special_within(table, class, table.len())
}

#[cycle(specials)]
#[tactic(auto, using(crate::proofs::Deeper::deeper))]
fn special_within(table: &ClassTable, class: ClassId, depth: u32) -> Specials
    ensures { result ≡ spec.special_within depth table.now class }
{
    if depth == 0 {
        return NOTHING;
    }
    match table.get(class) {
        Some(info) => of_class(
            class,
            info,
            fields_allow(table, info.fields.as_slice(), depth - 1),
        ),
        None => NOTHING,
    }
}

#[cycle(specials)]
#[tactic(auto, using(crate::proofs::Deeper::both_steps))]
fn fields_allow(table: &ClassTable, fields: &[FieldInfo], depth: u32) -> Allowed
    ensures { result ≡ all_allow (λ c. spec.special_within depth table.now c) fields.now }
{
    let mut allowed = ALL;
    let mut rest = fields;
    while let [field, next @ ..] = rest {
        allowed = and(allowed, field_allows(table, field, depth));
        rest = next;
    }
    allowed
}

#[cycle(specials)]
fn field_allows(table: &ClassTable, field: &FieldInfo, depth: u32) -> Allowed
    ensures { result ≡ spec.field_allows (λ c. spec.special_within depth table.now c) field.now }
{
    match field.of.head() {
        Head::Class(class) => {
            let inner = special_within(table, class, depth);
            Allowed {
                can_default: field.initialized || inner.can_default,
                can_copy: inner.can_copy,
                can_move: inner.can_move,
                trivial_end: inner.trivial_end,
            }
        }
        Head::Ref | Head::ConstRef => Allowed {
            can_default: field.initialized,
            ..ALL
        },
        Head::RefRef => Allowed {
            can_default: field.initialized,
            can_copy: false,
            ..ALL
        },
        Head::Atomic(_) => Allowed {
            can_copy: false,
            can_move: false,
            ..ALL
        },
        _ => ALL,
    }
}

fn and(a: Allowed, b: Allowed) -> Allowed
    ensures { result ≡ both a b }
{
    Allowed {
        can_default: a.can_default && b.can_default,
        can_copy: a.can_copy && b.can_copy,
        can_move: a.can_move && b.can_move,
        trivial_end: a.trivial_end && b.trivial_end,
    }
}

fn of_class(class: ClassId, info: &ClassInfo, allowed: Allowed) -> Specials
    ensures { result ≡ with_fields class info.now allowed }
{
    let constructed = declares(class, info, Member::Constructor);
    Specials {
        can_default: defaults(class, info, allowed.can_default),
        can_copy: copies(class, info, Member::Copy, allowed.can_copy),
        can_move: moves(class, info, allowed),
        trivial_end: ends(class, info, allowed.trivial_end),
        aggregate: !constructed,
    }
}

fn defaults(class: ClassId, info: &ClassInfo, allowed: bool) -> bool
    ensures { result ≡ spec.defaults class info.now allowed }
{
    if declares(class, info, Member::Constructor) {
        offers(class, info, Member::Default, allowed)
    } else {
        allowed
    }
}

fn copies(class: ClassId, info: &ClassInfo, kind: Member, allowed: bool) -> bool
    ensures { result ≡ spec.copies class info.now kind allowed }
{
    if declares(class, info, Member::Copy) {
        offers(class, info, kind, allowed)
    } else {
        !declares(class, info, Member::Move) && allowed
    }
}

fn moves(class: ClassId, info: &ClassInfo, allowed: Allowed) -> bool
    ensures { result ≡ spec.moves class info.now allowed }
{
    if declares(class, info, Member::Move) {
        offers(class, info, Member::Move, allowed.can_move)
    } else {
        moves_by_fields(class, info, allowed.can_move)
            || copies(class, info, Member::ConstCopy, allowed.can_copy)
    }
}

fn moves_by_fields(class: ClassId, info: &ClassInfo, allowed: bool) -> bool
    ensures { result ≡ spec.moves_by_fields class info.now allowed }
{
    let kept = declares(class, info, Member::Copy) || declares(class, info, Member::Destructor);
    !kept && allowed
}

fn ends(class: ClassId, info: &ClassInfo, allowed: bool) -> bool
    ensures { result ≡ spec.ends class info.now allowed }
{
    !declares(class, info, Member::WrittenDestructor) && allowed
}

fn declares(class: ClassId, info: &ClassInfo, kind: Member) -> bool
    ensures { result ≡ spec.declares class info.now kind }
{
    let mut rest = info.funcs.as_slice();
    while let [func, next @ ..] = rest {
        if is_member(class, info.name.as_slice(), kind, func) {
            return true;
        }
        rest = next;
    }
    false
}

fn offers(class: ClassId, info: &ClassInfo, kind: Member, allowed: bool) -> bool
    ensures { result ≡ spec.offers class info.now kind allowed }
{
    let mut rest = info.funcs.as_slice();
    while let [func, next @ ..] = rest {
        if is_offered(class, info.name.as_slice(), kind, allowed, func) {
            return true;
        }
        rest = next;
    }
    false
}

fn is_offered(class: ClassId, name: &[u8], kind: Member, allowed: bool, func: &FuncInfo) -> bool
    ensures { result ≡ spec.is_offered class name.now kind allowed func.now }
{
    is_member(class, name, kind, func) && can_use(allowed, func)
}

fn can_use(allowed: bool, func: &FuncInfo) -> bool
    ensures { result ≡ is_usable allowed func.now }
{
    !func.is_deleted && (!func.is_defaulted || allowed)
}

/// Whether a function is a user-declared special member of this kind.
fn is_member(class: ClassId, name: &[u8], kind: Member, func: &FuncInfo) -> bool
    ensures { result ≡ spec.is_member class name.now kind func.now }
{
    if func.is_implicit {
        return false;
    }
    if !is_named(name, kind, func.name.as_slice()) {
        return false;
    }
    fits(class, kind, func)
}

fn is_named(class: &[u8], kind: Member, name: &[u8]) -> bool
    ensures { result ≡ spec.names class.now kind name.now }
{
    match kind {
        Member::Constructor | Member::Default | Member::Copy | Member::ConstCopy | Member::Move =>
            name == class,
        Member::Destructor | Member::WrittenDestructor => is_destructor(class, name),
    }
}

fn fits(class: ClassId, kind: Member, func: &FuncInfo) -> bool
    ensures { result ≡ spec.fits class kind func.now }
{
    let params = func.params.as_slice();
    match kind {
        Member::Constructor | Member::Destructor => true,
        Member::Default => params.is_empty(),
        Member::Copy => takes_one(class, Head::Ref, params)
            || takes_one(class, Head::ConstRef, params),
        Member::ConstCopy => takes_one(class, Head::ConstRef, params),
        Member::Move => takes_one(class, Head::RefRef, params),
        Member::WrittenDestructor => !func.is_defaulted,
    }
}

fn takes_one(class: ClassId, kind: Head, params: &[CoType]) -> bool
    ensures { result ≡ spec.takes_one class kind params.now }
{
    match params {
        [param] => has_same_head(param.head(), kind) && refers_to(class, param),
        _ => false,
    }
}

fn refers_to(class: ClassId, param: &CoType) -> bool
    ensures { result ≡ spec.is_class class (target_of param.now) }
{
    match param.target() {
        Some(to) => has_same_head(to.head(), Head::Class(class)),
        None => false,
    }
}
