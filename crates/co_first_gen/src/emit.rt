ghost use Rattle.std.specs.Prelude.{◌≡◌, [], ◌∷◌, ◌++◌, length, IfOk, OnOk};
ghost use Rattle.co_first_gen.specs.Code.{placed, op_of, atom_code, term_code, terms_code, sum_code, assign_code, stmt_code, list_code, span_of, code_of};

use co_base::{NoMemory, Num, Op, Span};
use co_first_exec::{Image, Instr, Placed};
use co_first_tree::{Atom, Program, Stmt, Sum, SumOp, Term};
use sqlite_items::Items;
use std::alloc::Global;

/// The code of a program: that of its statements one after the other, and then the end of `main`. Places are counted
/// from the first instruction of the image.
pub fn generate(alloc: Global, program: &Program) -> Result<Image, NoMemory>
    ensures { IfOk result (λ image. image.code ≡ code_of program.now) }
{
    let mut code = Vec::new(alloc);
    emit_all(&mut code, program.body.as_slice())?;
    put(&mut code, Instr::MainRet, Span { line: 0, col: 0 })?;
    Ok(Image {
        code: Items::from_vec(code),
    })
}

#[cycle(emitting)]
fn emit_all(code: &mut Vec<Placed>, stmts: &[Stmt]) -> Result<(), NoMemory>
    ensures { OnOk result (code.new.items ≡ code.old.items ++ list_code (length code.old.items) stmts.now) }
{
    for stmt in stmts {
        emit_stmt(code, stmt)?;
    }
    Ok(())
}

#[cycle(emitting)]
fn emit_stmt(code: &mut Vec<Placed>, stmt: &Stmt) -> Result<(), NoMemory>
    ensures { OnOk result (code.new.items ≡ code.old.items ++ stmt_code (length code.old.items) stmt.now) }
{
    match stmt {
        Stmt::Declare(x, sum) => emit_assign(code, *x, sum),
        Stmt::Assign(x, sum) => emit_assign(code, *x, sum),
        Stmt::While(sum, body) => {
            let start = code.len();
            emit_sum(code, sum)?;
            let test_end = code.len();
            put(code, Instr::JumpZ(0), span_of(sum))?;
            emit_all(code, body.as_slice())?;
            put(code, Instr::Jump(start as u64), span_of(sum))?;
            code[test_end] = Placed {
                instr: Instr::JumpZ(code.len() as u64),
                span: span_of(sum),
            };
            Ok(())
        }
        Stmt::Print(sum) => {
            emit_sum(code, sum)?;
            put(code, Instr::Print, span_of(sum))?;
            Ok(())
        }
    }
}

// The variable's address goes onto the stack, and the word there becomes the sum's value.
fn emit_assign(code: &mut Vec<Placed>, x: u32, sum: &Sum) -> Result<(), NoMemory>
    ensures { OnOk result (code.new.items ≡ code.old.items ++ assign_code x sum.now) }
{
    let span = span_of(sum);
    put(code, Instr::Slot(x), span)?;
    put(code, Instr::Push, span)?;
    emit_sum(code, sum)?;
    put(code, Instr::Pop, span)?;
    put(code, Instr::Store, span)?;
    Ok(())
}

fn emit_sum(code: &mut Vec<Placed>, sum: &Sum) -> Result<(), NoMemory>
    ensures { OnOk result (code.new.items ≡ code.old.items ++ sum_code sum.now) }
{
    match sum {
        Sum::Int(value, span) => {
            put(code, Instr::Const(*value as i64), *span)?;
            Ok(())
        }
        Sum::Name(x, terms, span) => {
            put(code, Instr::Slot(*x), *span)?;
            put(code, Instr::Load, *span)?;
            emit_terms(code, terms.as_slice(), *span)?;
            Ok(())
        }
    }
}

fn emit_terms(code: &mut Vec<Placed>, terms: &[Term], span: Span) -> Result<(), NoMemory>
    ensures { OnOk result (code.new.items ≡ code.old.items ++ terms_code span terms.now) }
{
    for term in terms {
        emit_term(code, *term, span)?;
    }
    Ok(())
}

// What is left of the operator waits on the stack while the right operand is made.
fn emit_term(code: &mut Vec<Placed>, term: Term, span: Span) -> Result<(), NoMemory>
    ensures { OnOk result (code.new.items ≡ code.old.items ++ term_code span term) }
{
    put(code, Instr::Push, span)?;
    emit_atom(code, term.atom, span)?;
    put(code, Instr::Pop, span)?;
    put(code, Instr::Arith(op_of(term.op), Num::Long), span)?;
    Ok(())
}

fn emit_atom(code: &mut Vec<Placed>, atom: Atom, span: Span) -> Result<(), NoMemory>
    ensures { OnOk result (code.new.items ≡ code.old.items ++ atom_code span atom) }
{
    match atom {
        Atom::Int(value) => {
            put(code, Instr::Const(value as i64), span)?;
            Ok(())
        }
        Atom::Name(y) => {
            put(code, Instr::Slot(y), span)?;
            put(code, Instr::Load, span)?;
            Ok(())
        }
    }
}

fn op_of(op: SumOp) -> Op
    ensures { result ≡ op_of op }
{
    match op {
        SumOp::Add => Op::Add,
        SumOp::Sub => Op::Sub,
    }
}

fn span_of(sum: &Sum) -> Span
    ensures { result ≡ span_of sum.now }
{
    match sum {
        Sum::Int(_, span) => *span,
        Sum::Name(_, _, span) => *span,
    }
}

// One more instruction.
fn put(code: &mut Vec<Placed>, instr: Instr, span: Span) -> Result<(), NoMemory>
    ensures { OnOk result (code.new.items ≡ code.old.items ++ placed instr span ∷ []) }
{
    code.push(Placed { instr, span })?;
    Ok(())
}
