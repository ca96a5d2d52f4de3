ghost use Rattle.std.specs.Prelude.{◌≡◌, OnOk};
ghost use Rattle.co_tree.specs.Types as spec;
ghost use Rattle.co_tree.specs.declared.types.SimpleTypeKind.TheVariants as simple;
ghost use Rattle.co_print.specs.Printed.{put_all};

use crate::printer::Printer;
use co_base::{AtomicKind, NoMemory, Text};
use co_lex::{Mark, Word};
use co_tree::{Path, Reference, SimpleType, SimpleTypeKind, TypeId};

#[tactic(auto, using(crate::proofs::Puts::puts))]
pub fn print_path(out: &mut Printer, path: &Path) -> Result<(), NoMemory>
    ensures { OnOk result (out.new ≡ put_all out.old (spec.path path.now)) }
{
    print_names(out, path.names.as_slice())
}

#[tactic(auto, using(crate::proofs::Puts::puts))]
fn print_names(out: &mut Printer, names: &[Text]) -> Result<(), NoMemory>
    ensures { OnOk result (out.new ≡ put_all out.old (spec.path_names names.now)) }
{
    match names {
        [] => Ok(()),
        [first, rest @ ..] => {
            out.name(first.as_slice())?;
            print_names_after(out, rest)?;
            Ok(())
        }
    }
}

fn print_names_after(out: &mut Printer, mut names: &[Text]) -> Result<(), NoMemory>
    ensures { OnOk result (out.new ≡ put_all out.old (spec.names_after names.entry.now)) }
{
    while let [name, rest @ ..] = names {
        out.mark(Mark::Scope)?;
        out.name(name.as_slice())?;
        names = rest;
    }
    Ok(())
}

#[tactic(auto, unfolding(co_tree::specs::Types::handle_name))]
fn handle_name() -> &'static [u8]
    ensures { result.now ≡ spec.handle_name }
{
    b"coroutine_handle"
}

#[tactic(auto, using(crate::proofs::Puts::puts))]
pub fn print_handle(out: &mut Printer, promise: &Option<Path>) -> Result<(), NoMemory>
    ensures { OnOk result (out.new ≡ put_all out.old (spec.handle promise.now)) }
{
    out.standard(handle_name())?;
    out.mark(Mark::Less)?;
    print_path_if(out, promise)?;
    out.mark(Mark::Greater)?;
    Ok(())
}

fn print_path_if(out: &mut Printer, path: &Option<Path>) -> Result<(), NoMemory>
    ensures { OnOk result (out.new ≡ put_all out.old (spec.path_if path.now)) }
{
    match path {
        None => Ok(()),
        Some(path) => print_path(out, path),
    }
}

#[tactic(auto, using(crate::proofs::Puts::puts))]
fn print_atomic_argument(out: &mut Printer, kind: AtomicKind) -> Result<(), NoMemory>
    ensures { OnOk result (out.new ≡ put_all out.old (spec.atomic_argument kind)) }
{
    match kind {
        AtomicKind::Int => out.word(Word::Int),
        AtomicKind::Long => out.word(Word::Long),
        AtomicKind::Bool => out.word(Word::Bool),
        AtomicKind::VoidPointer => {
            out.word(Word::Void)?;
            out.mark(Mark::Star)?;
            Ok(())
        }
    }
}

#[tactic(auto, using(crate::proofs::Puts::puts))]
fn print_atomic(out: &mut Printer, kind: AtomicKind) -> Result<(), NoMemory>
    ensures { OnOk result (out.new ≡ put_all out.old (spec.simple_kind (simple.Atomic kind))) }
{
    out.standard(b"atomic")?;
    out.mark(Mark::Less)?;
    print_atomic_argument(out, kind)?;
    out.mark(Mark::Greater)?;
    Ok(())
}

#[tactic(auto, using(crate::proofs::Puts::puts))]
pub fn print_simple_type(out: &mut Printer, base: &SimpleType) -> Result<(), NoMemory>
    ensures { OnOk result (out.new ≡ put_all out.old (spec.simple_type base.now)) }
{
    match &base.kind {
        SimpleTypeKind::Void => out.word(Word::Void),
        SimpleTypeKind::Bool => out.word(Word::Bool),
        SimpleTypeKind::Int => out.word(Word::Int),
        SimpleTypeKind::Long => out.word(Word::Long),
        SimpleTypeKind::Auto => out.word(Word::Auto),
        SimpleTypeKind::Size => out.standard(b"size_t"),
        SimpleTypeKind::ExceptionPtr => out.standard(b"exception_ptr"),
        SimpleTypeKind::SuspendAlways => out.standard(b"suspend_always"),
        SimpleTypeKind::SuspendNever => out.standard(b"suspend_never"),
        SimpleTypeKind::Handle(promise) => print_handle(out, promise),
        SimpleTypeKind::Atomic(kind) => print_atomic(out, *kind),
        SimpleTypeKind::Class(path) => print_path(out, path),
    }
}

pub fn print_stars(out: &mut Printer, count: u32) -> Result<(), NoMemory>
    ensures { OnOk result (out.new ≡ put_all out.old (spec.stars count)) }
{
    for star in 0..count {
        out.mark(Mark::Star)?;
    }
    Ok(())
}

#[tactic(auto, using(crate::proofs::Puts::puts))]
fn print_reference(out: &mut Printer, reference: Reference) -> Result<(), NoMemory>
    ensures { OnOk result (out.new ≡ put_all out.old (spec.reference_mark reference)) }
{
    match reference {
        Reference::None => Ok(()),
        Reference::Lvalue => out.mark(Mark::And),
        Reference::Rvalue => out.mark(Mark::AndAnd),
    }
}

#[tactic(auto, using(crate::proofs::Puts::puts))]
pub fn print_type(out: &mut Printer, of: &TypeId) -> Result<(), NoMemory>
    ensures { OnOk result (out.new ≡ put_all out.old (spec.type_id of.now)) }
{
    out.word_if(of.is_const, Word::Const)?;
    print_simple_type(out, &of.base)?;
    out.word_if(of.is_const_after, Word::Const)?;
    print_stars(out, of.pointers)?;
    print_reference(out, of.reference)?;
    Ok(())
}
