use crate::{
    Arg, ArgKind, Choice, ClassInfo, ClassTable, CoType, FieldInfo, Found, FuncInfo, Head, Rank,
    Specials, choose, chooses_once, conversion, find_member, is_same, same_is_equal, special,
    special_recurs,
};
use co_base::{AtomicKind, ClassId, FuncId, NoMemory, Num, Span, Text};
use sqlite_items::{Boxed, Items};
use std::alloc::Global;
use std::test::Fail;

const AT: Span = Span { line: 1, col: 1 };

/// Candidates, arguments, and what g++ and clang++ choose. A type is spelled from within: `b`, `i`, `l`, `z` are `bool`,
/// `int`, `long`, `std::size_t`, `C` a class, `h` and `H` a handle of `C` and `std::coroutine_handle<>`, `e` an
/// `std::exception_ptr`, `n` that of `nullptr`; then `*`, `&`, `?` for `const T&`, `%` for `T&&`. A comma ends a parameter,
/// a semicolon a candidate, and `L`, `X` or `P` an argument of that value category.
const CHOICES: [(&[u8], &[u8], Choice); 34] = [
    (b"i,;l,;", b"bP", Choice::One(0)),
    (b"i,;l,;", b"zP", Choice::Several),
    (b"i,;l,;", b"iL", Choice::One(0)),
    (b"i,;l,;", b"lX", Choice::One(1)),
    (b"l,;z,;i,;", b"bP", Choice::One(2)),
    (b"i,;b,;", b"lP", Choice::Several),
    (b"b,;v*,;", b"i*P", Choice::One(1)),
    (b"b,;v*,;i*,;", b"i*L", Choice::One(2)),
    (b"i*,;b,;", b"nP", Choice::One(0)),
    (b"i*,;v*,;", b"nP", Choice::Several),
    (b"C&,;C?,;", b"CL", Choice::One(0)),
    (b"C&,;C?,;", b"CX", Choice::One(1)),
    (b"C&,;C?,;", b"CP", Choice::One(1)),
    (b"C%,;C?,;", b"CL", Choice::One(1)),
    (b"C%,;C?,;", b"CX", Choice::One(0)),
    (b"C%,;C?,;", b"CP", Choice::One(0)),
    (b"C&,;", b"CP", Choice::None),
    (b"C%,;", b"CL", Choice::None),
    (b"C,;C&,;", b"CL", Choice::Several),
    (b"C,;C?,;", b"CP", Choice::Several),
    (b"i%,;i?,;", b"iL", Choice::One(1)),
    (b"i%,;i?,;", b"iX", Choice::One(0)),
    (b"i,l,;l,i,;", b"iPiP", Choice::Several),
    (b"i,l,;l,i,;", b"iPlP", Choice::One(0)),
    (b"i,;i,i,;", b"iP", Choice::One(0)),
    (b"i,C&,;i,C?,;", b"lPCL", Choice::One(0)),
    (b"C&,l,;C?,i,;", b"CLiP", Choice::Several),
    (b"C&,i,;C?,i,;C?,l,;", b"CLiP", Choice::One(0)),
    (b"v*,;H,;e,;", b"nP", Choice::One(0)),
    (b"H,;e,;", b"nP", Choice::Several),
    (b"H,;h,;", b"hL", Choice::One(1)),
    (b"H,;C,;", b"hP", Choice::One(0)),
    (b"h,;", b"HP", Choice::None),
    (b"H?,i,;H,l,;", b"HPbP", Choice::One(0)),
];
/// Fields, functions, and what g++ and clang++ say of the class by the traits of its objects. The fields are spelled
/// as parameters; `a` is an `std::atomic<int>`, and a digit the class of that row. Of a function `d`, `c`, `m`, `t`, `o`
/// and `e` are `T()`, `T(const T&)`, `T(T&&)`, `T(T&)`, `T(long)` and `~T()`, and the capital one is defaulted; `x` is a
/// deleted `T(const T&)`.
const CLASSES: [(&[u8], &[u8], &[u8]); 12] = [
    (b"i,", b"", b"11111"),
    (b"0,a,", b"", b"10011"),
    (b"i,", b"x", b"00010"),
    (b"i,", b"e", b"11101"),
    (b"i,", b"m", b"00110"),
    (b"3,", b"", b"11101"),
    (b"i&,", b"", b"01111"),
    (b"i,", b"DC", b"11110"),
    (b"4,", b"E", b"00011"),
    (b"6,", b"D", b"01110"),
    (b"", b"to", b"01010"),
    (b"4,", b"", b"00111"),
];

/// Types in the spelling of `CHOICES`, no two of which are one.
const TYPES: [&[u8]; 18] = [
    b"v", b"b", b"i", b"l", b"z", b"C", b"1", b"a", b"h", b"H", b"e", b"n", b"i*", b"i&", b"i?",
    b"i%", b"i**", b"C*",
];

/// An argument, a parameter, and the rank with which the one converts to the other.
const CONVERSIONS: [(&[u8], &[u8], Option<Rank>); 12] = [
    (b"iP", b"i", Some(Rank::Exact)),
    (b"bP", b"i", Some(Rank::Promotion)),
    (b"bP", b"l", Some(Rank::Conversion)),
    (b"i*P", b"v*", Some(Rank::Conversion)),
    (b"nP", b"i*", Some(Rank::Conversion)),
    (b"i*L", b"b", Some(Rank::Truth)),
    (b"hP", b"H", Some(Rank::Library)),
    (b"nP", b"e", Some(Rank::Library)),
    (b"v*P", b"i*", None),
    (b"nP", b"b", None),
    (b"CP", b"C&", None),
    (b"lP", b"i?", None),
];

const NAMES: [&[u8]; 5] = [b"T", b"f", b"g", b"f", b"~T"];

/// The type with one more letter of its spelling.
fn grown(alloc: Global, of: CoType, letter: u8) -> Result<CoType, NoMemory> {
    match letter {
        b'*' => Ok(CoType::Pointer(Boxed::new(alloc, of)?)),
        b'&' => Ok(CoType::Ref(Boxed::new(alloc, of)?)),
        b'?' => Ok(CoType::ConstRef(Boxed::new(alloc, of)?)),
        b'%' => Ok(CoType::RefRef(Boxed::new(alloc, of)?)),
        _ => Ok(base(letter)),
    }
}

fn base(letter: u8) -> CoType {
    match letter {
        b'b' => CoType::Num(Num::Bool),
        b'i' => CoType::Num(Num::Int),
        b'l' => CoType::Num(Num::Long),
        b'z' => CoType::Num(Num::Size),
        b'a' => CoType::Atomic(AtomicKind::Int),
        b'C' => CoType::Class(ClassId(0)),
        b'h' => CoType::Handle(Some(ClassId(0))),
        b'H' => CoType::Handle(None),
        b'e' => CoType::ExceptionPtr,
        b'n' => CoType::NullPtr,
        b'0'..=b'9' => CoType::Class(ClassId(u32::from(letter - b'0'))),
        _ => CoType::Void,
    }
}

fn func(alloc: Global, name: &[u8], params: Items<CoType>) -> Result<FuncInfo, NoMemory> {
    let name = Text::from_slice(alloc, name)?;
    Ok(FuncInfo {
        id: FuncId(0),
        name,
        params,
        result: CoType::Void,
        is_static: false,
        is_noexcept: false,
        is_deleted: false,
        is_implicit: false,
        is_defaulted: false,
        span: AT,
    })
}

fn candidates(alloc: Global, text: &[u8]) -> Result<Items<FuncInfo>, NoMemory> {
    let mut funcs = Items::new(alloc);
    let mut params = Items::new(alloc);
    let mut of = CoType::Void;
    for byte in text {
        let letter = *byte;
        if letter == b',' {
            params.push(of)?;
            of = CoType::Void;
        } else if letter == b';' {
            funcs.push(func(alloc, b"f", params)?)?;
            params = Items::new(alloc);
        } else {
            of = grown(alloc, of, letter)?;
        }
    }
    Ok(funcs)
}

fn kind_of(letter: u8) -> Option<ArgKind> {
    match letter {
        b'L' => Some(ArgKind::Lvalue),
        b'X' => Some(ArgKind::Xvalue),
        b'P' => Some(ArgKind::Prvalue),
        _ => None,
    }
}

fn arguments(alloc: Global, text: &[u8]) -> Result<Items<Arg>, NoMemory> {
    let mut args = Items::new(alloc);
    let mut of = CoType::Void;
    for byte in text {
        let letter = *byte;
        match kind_of(letter) {
            Some(kind) => {
                args.push(Arg { of, kind })?;
                of = CoType::Void;
            }
            None => of = grown(alloc, of, letter)?,
        }
    }
    Ok(args)
}

#[test]
fn choices_are_those_of_the_compilers(rt: HostRuntime) -> Result<(), Fail> {
    for (funcs, args, choice) in CHOICES {
        let funcs = candidates(rt.alloc(), funcs)?;
        assert!(rt; funcs.len() < 100);
        let args = arguments(rt.alloc(), args)?;
        assert!(rt; choose(funcs.as_slice(), args.as_slice()) == choice);
    }
    Ok(())
}

fn fields(alloc: Global, text: &[u8]) -> Result<Items<FieldInfo>, NoMemory> {
    let mut fields = Items::new(alloc);
    let mut of = CoType::Void;
    for byte in text {
        let letter = *byte;
        if letter == b',' {
            let name = Text::from_slice(alloc, b"x")?;
            fields.push(FieldInfo {
                name,
                of,
                span: AT,
                initialized: false,
            })?;
            of = CoType::Void;
        } else {
            of = grown(alloc, of, letter)?;
        }
    }
    Ok(fields)
}

fn own(alloc: Global, class: u32, letter: u8) -> Result<Items<CoType>, NoMemory> {
    let mut params = Items::new(alloc);
    let of = CoType::Class(ClassId(class));
    match letter {
        b'c' | b'C' | b'x' => params.push(CoType::ConstRef(Boxed::new(alloc, of)?))?,
        b'm' => params.push(CoType::RefRef(Boxed::new(alloc, of)?))?,
        b't' => params.push(CoType::Ref(Boxed::new(alloc, of)?))?,
        b'o' => params.push(CoType::Num(Num::Long))?,
        _ => {}
    }
    Ok(params)
}

fn members(alloc: Global, class: u32, text: &[u8]) -> Result<Items<FuncInfo>, NoMemory> {
    let mut funcs = Items::new(alloc);
    for byte in text {
        let letter = *byte;
        let name: &[u8] = if letter == b'e' || letter == b'E' {
            b"~T"
        } else {
            b"T"
        };
        let mut made = func(alloc, name, own(alloc, class, letter)?)?;
        made.is_deleted = letter == b'x';
        made.is_defaulted = letter < b'a';
        funcs.push(made)?;
    }
    Ok(funcs)
}

fn class_of(alloc: Global, of: &[u8], funcs: Items<FuncInfo>) -> Result<ClassInfo, NoMemory> {
    let name = Text::from_slice(alloc, b"T")?;
    let fields = fields(alloc, of)?;
    Ok(ClassInfo {
        name,
        outer: None,
        fields,
        funcs,
        aliases: Items::new(alloc),
        span: AT,
    })
}

fn shows(of: Specials, wanted: &[u8]) -> bool {
    match wanted {
        [defaults, copies, moves, ends, aggregate] => {
            of.can_default == (*defaults == b'1')
                && of.can_copy == (*copies == b'1')
                && of.can_move == (*moves == b'1')
                && of.trivial_end == (*ends == b'1')
                && of.aggregate == (*aggregate == b'1')
        }
        _ => false,
    }
}

#[test]
fn specials_are_those_of_the_compilers(rt: HostRuntime) -> Result<(), Fail> {
    let mut table = ClassTable::new(rt.alloc());
    for (of, funcs, wanted) in CLASSES {
        let class = table.len();
        assert!(rt; class < 1024);
        let funcs = members(rt.alloc(), class, funcs)?;
        let info = class_of(rt.alloc(), of, funcs)?;
        assert!(rt; info.fields.len() < 100);
        assert!(rt; info.funcs.len() < 100);
        let id = table.add(info)?;
        assert!(rt; shows(special(&table, id), wanted));
    }
    Ok(())
}

#[test]
fn members_are_found_by_name(rt: HostRuntime) -> Result<(), Fail> {
    let mut table = ClassTable::new(rt.alloc());
    let mut funcs = Items::new(rt.alloc());
    for name in NAMES {
        funcs.push(func(rt.alloc(), name, Items::new(rt.alloc()))?)?;
    }
    let info = class_of(rt.alloc(), b"i,l,", funcs)?.copy(rt.alloc())?;
    assert!(rt; info.fields.len() == 2);
    assert!(rt; info.funcs.len() == 5);
    let id = table.add(info)?;
    let table = table.copy(rt.alloc())?;
    assert!(rt; table.len() == 1);
    assert!(rt; find_member(&table, id, b"x") == Found::Field(0));
    assert!(rt; find_member(&table, id, b"f") == Found::Funcs(1));
    assert!(rt; find_member(&table, id, b"g") == Found::Funcs(2));
    assert!(rt; find_member(&table, id, b"T") == Found::None);
    assert!(rt; find_member(&table, id, b"~T") == Found::None);
    assert!(rt; find_member(&table, id, b"y") == Found::None);
    assert!(rt; find_member(&table, ClassId(1), b"x") == Found::None);
    Ok(())
}

fn spelled(alloc: Global, text: &[u8]) -> Result<CoType, NoMemory> {
    let mut of = CoType::Void;
    for byte in text {
        of = grown(alloc, of, *byte)?;
    }
    Ok(of)
}

#[test]
fn types_are_told_apart(rt: HostRuntime) -> Result<(), Fail> {
    for (at, text) in TYPES.iter().enumerate() {
        let one = spelled(rt.alloc(), text)?;
        assert!(rt; is_same(&one, &one.copy(rt.alloc())?));
        for (other_at, other) in TYPES.iter().enumerate() {
            let other = spelled(rt.alloc(), other)?;
            assert!(rt; is_same(&one, &other) == (at == other_at));
        }
    }
    Ok(())
}

#[test]
fn heads_and_targets(rt: HostRuntime) -> Result<(), Fail> {
    let of = spelled(rt.alloc(), b"C*?")?;
    assert!(rt; of.head() == Head::ConstRef);
    let to = of.target();
    assert!(rt; to.is_some_and(|t| t.head() == Head::Pointer));
    let class = spelled(rt.alloc(), b"C")?;
    assert!(rt; class.head() == Head::Class(ClassId(0)));
    assert!(rt; class.target().is_none());
    Ok(())
}

#[test]
fn arguments_convert_with_their_ranks(rt: HostRuntime) -> Result<(), Fail> {
    for (arg, param, rank) in CONVERSIONS {
        let args = arguments(rt.alloc(), arg)?;
        let param = spelled(rt.alloc(), param)?;
        let first = args.as_slice().first();
        assert!(rt; first.is_some_and(|a| conversion(a, &param) == rank));
    }
    Ok(())
}

#[test]
fn classes_are_held_in_their_order(rt: HostRuntime) -> Result<(), Fail> {
    let mut table = ClassTable::new(rt.alloc());
    for of in [b"i,".as_slice(), b"i,l,", b""] {
        let info = class_of(rt.alloc(), of, Items::new(rt.alloc()))?;
        assert!(rt; info.fields.len() < 100);
        assert!(rt; info.funcs.len() == 0);
        assert!(rt; table.len() < 1024);
        table.add(info)?;
    }
    assert!(rt; table.len() == 3);
    assert!(rt; table.info(ClassId(1)).fields.len() == 2);
    assert!(rt; table.info(ClassId(2)).fields.len() == 0);
    Ok(())
}

#[test]
fn laws_stand(_rt: HostRuntime) -> Result<(), Fail> {
    chooses_once();
    same_is_equal();
    special_recurs();
    Ok(())
}
