ghost use Rattle.std.specs.Prelude.{◌≡◌, map, IfOk, OnOk, OnErr};
ghost use Rattle.co_rules.specs.Names as spec;

use crate::pattern::is_plain;
use crate::symbol::Known;
use co_base::NoMemory;
use co_lex::{Token, TokenKind, Word};
use std::alloc::Global;
use std::collections::BTreeSet;

/// Each name that the grammar spells.
pub const SPELLINGS: [(&[u8], Known); 21] = [
    (b"std", Known::Std),
    (b"corun", Known::Corun),
    (b"size_t", Known::SizeT),
    (b"exception_ptr", Known::ExceptionPtr),
    (b"suspend_always", Known::SuspendAlways),
    (b"suspend_never", Known::SuspendNever),
    (b"coroutine_handle", Known::CoroutineHandle),
    (b"atomic", Known::Atomic),
    (b"move", Known::Move),
    (b"exchange", Known::Exchange),
    (b"noop_coroutine", Known::NoopCoroutine),
    (b"terminate", Known::Terminate),
    (b"current_exception", Known::CurrentException),
    (b"rethrow_exception", Known::RethrowException),
    (b"text", Known::Text),
    (b"print", Known::Print),
    (b"post", Known::Post),
    (b"input", Known::Input),
    (b"inputs", Known::Inputs),
    (b"from_address", Known::FromAddress),
    (b"from_promise", Known::FromPromise),
];

fn lookup(mut table: &[(&[u8], Known)], name: &[u8]) -> Known
    ensures { result ≡ spec.lookup (map (λ k. (k.0.now, k.1)) table.entry.now) name.now }
{
    while let [entry, rest @ ..] = table {
        if entry.0 == name {
            return entry.1;
        }
        table = rest;
    }
    Known::Other
}

/// Which of the names that the grammar spells this one is.
#[tactic(auto, unfolding(crate::specs::Names::known))]
pub fn known(name: &[u8]) -> Known
    ensures { result ≡ spec.known name.now }
{
    lookup(&SPELLINGS, name)
}

/// The names of the classes of a list of tokens.
#[derive(Drop)]
pub struct ClassNames {
    names: BTreeSet<Vec<u8>>,
    has_some: bool,
}

impl ClassNames {
    /// Whether a class has this name.
    pub fn contains(&self, name: &[u8]) -> bool
        ensures { result ≡ spec.holds self.now name.now }
    {
        self.names.contains(name)
    }

    /// Whether there is a class.
    pub fn has_some(&self) -> bool
        ensures { result ≡ self.now.has_some }
    {
        self.has_some
    }
}

fn add(alloc: Global, classes: &mut ClassNames, name: &[u8]) -> Result<(), NoMemory>
    ensures { OnOk result (spec.Gains classes.old name.now classes.new) }
{
    let name = Vec::from_slice(alloc, name)?;
    classes.names.insert(name)?;
    classes.has_some = true;
    Ok(())
}

fn introduces(kind: &TokenKind) -> bool
    ensures { result ≡ spec.introduces kind.now }
{
    matches!(
        kind,
        TokenKind::Word(Word::Struct | Word::Class | Word::Using)
    )
}

fn add_named(
    alloc: Global,
    classes: &mut ClassNames,
    is_named: bool,
    kind: &TokenKind,
) -> Result<(), NoMemory>
    ensures { OnOk result (spec.GainsAll classes.old (spec.named is_named kind.now) classes.new) }
{
    if !is_named {
        return Ok(());
    }
    if let TokenKind::Name(name) = kind {
        let name = name.as_slice();
        if is_plain(known(name)) {
            add(alloc, classes, name)?;
        }
    }
    Ok(())
}

/// The names that stand right after `struct`, `class` or `using`, other than `std` and `corun` [class.pre] [dcl.typedef].
pub fn class_names(alloc: Global, tokens: &[Token]) -> Result<ClassNames, NoMemory>
    ensures { IfOk result (λ classes. spec.Knows classes (spec.classes tokens.now)) }
{
    let mut classes = ClassNames {
        names: BTreeSet::new(alloc),
        has_some: false,
    };
    let mut is_named = false;
    for token in tokens {
        add_named(alloc, &mut classes, is_named, &token.kind)?;
        is_named = introduces(&token.kind);
    }
    Ok(classes)
}
