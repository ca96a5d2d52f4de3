ghost use Rattle.std.specs.Prelude.{◌≡◌, OnOk, if◌then◌else◌};
ghost use Rattle.co_lex.specs.declared.token.Mark.TheVariants as mark;
ghost use Rattle.co_tree.specs.Declarations as spec;
ghost use Rattle.co_tree.specs.Piece.{in_parentheses};
ghost use Rattle.co_print.specs.Printed.{put_all};

use crate::expressions::{print_in_braces, print_in_parentheses};
use crate::printer::Printer;
use crate::statements::{print_block, print_parameter, print_variable};
use crate::types::print_type;
use co_base::NoMemory;
use co_lex::{Mark, Word};
use co_tree::{
    AccessSpecifier, AliasDeclaration, Block, Brackets, ClassDefinition, ClassKey, Constructor,
    ConstructorBody, Declaration, Destructor, DestructorBody, ForwardDeclaration, Function,
    FunctionName, FunctionSpecifier, MemberDeclaration, MemberInitializer, Parameter,
};

fn key_word(key: ClassKey) -> Word
    ensures { result ≡ spec.key_word key }
{
    match key {
        ClassKey::Struct => Word::Struct,
        ClassKey::Class => Word::Class,
    }
}

fn access_word(specifier: AccessSpecifier) -> Word
    ensures { result ≡ spec.access_word specifier }
{
    match specifier {
        AccessSpecifier::Public => Word::Public,
        AccessSpecifier::Private => Word::Private,
        AccessSpecifier::Protected => Word::Protected,
    }
}

fn specifier_word(specifier: FunctionSpecifier) -> Word
    ensures { result ≡ spec.specifier_word specifier }
{
    match specifier {
        FunctionSpecifier::Static => Word::Static,
        FunctionSpecifier::Inline => Word::Inline,
    }
}

#[tactic(auto, using(crate::proofs::Puts::puts))]
fn print_forward(out: &mut Printer, forward: &ForwardDeclaration) -> Result<(), NoMemory>
    ensures { OnOk result (out.new ≡ put_all out.old (spec.forward forward.now)) }
{
    out.word(key_word(forward.key))?;
    out.name(forward.name.as_slice())?;
    out.mark(Mark::Semicolon)?;
    Ok(())
}

#[tactic(auto, using(crate::proofs::Puts::puts))]
fn print_alias(out: &mut Printer, alias: &AliasDeclaration) -> Result<(), NoMemory>
    ensures { OnOk result (out.new ≡ put_all out.old (spec.alias alias.now)) }
{
    out.word(Word::Using)?;
    out.name(alias.name.as_slice())?;
    out.mark(Mark::Assign)?;
    print_type(out, &alias.of)?;
    out.mark(Mark::Semicolon)?;
    Ok(())
}

fn print_specifiers(out: &mut Printer, mut specifiers: &[FunctionSpecifier]) -> Result<(), NoMemory>
    ensures { OnOk result (out.new ≡ put_all out.old (spec.specifiers specifiers.entry.now)) }
{
    while let [specifier, rest @ ..] = specifiers {
        out.word(specifier_word(*specifier))?;
        specifiers = rest;
    }
    Ok(())
}

#[tactic(auto, using(crate::proofs::Puts::puts))]
fn print_function_name(out: &mut Printer, name: &FunctionName) -> Result<(), NoMemory>
    ensures { OnOk result (out.new ≡ put_all out.old (spec.function_named name.now)) }
{
    match name {
        FunctionName::Name(name) => out.name(name.as_slice()),
        FunctionName::OperatorCoAwait => {
            out.word(Word::Operator)?;
            out.word(Word::CoAwait)?;
            Ok(())
        }
        FunctionName::OperatorNew => {
            out.word(Word::Operator)?;
            out.word(Word::New)?;
            Ok(())
        }
        FunctionName::OperatorDelete => {
            out.word(Word::Operator)?;
            out.word(Word::Delete)?;
            Ok(())
        }
    }
}

#[tactic(auto, using(crate::proofs::Puts::puts))]
fn print_parameters(out: &mut Printer, parameters: &[Parameter]) -> Result<(), NoMemory>
    ensures { OnOk result (out.new ≡ put_all out.old (in_parentheses (spec.parameters parameters.now))) }
{
    out.mark(Mark::OpenParen)?;
    print_parameter_list(out, parameters)?;
    out.mark(Mark::CloseParen)?;
    Ok(())
}

fn print_parameter_list(out: &mut Printer, parameters: &[Parameter]) -> Result<(), NoMemory>
    ensures { OnOk result (out.new ≡ put_all out.old (spec.parameters parameters.now)) }
{
    let mut is_first = true;
    for parameter in parameters {
        out.mark_if(!is_first, Mark::Comma)?;
        print_parameter(out, parameter)?;
        is_first = false;
    }
    Ok(())
}

fn print_block_or_semicolon(out: &mut Printer, body: &Option<Block>) -> Result<(), NoMemory>
    ensures { OnOk result (out.new ≡ put_all out.old (spec.block_or_semicolon body.now)) }
{
    match body {
        None => out.mark(Mark::Semicolon),
        Some(block) => print_block(out, block),
    }
}

#[tactic(auto, using(crate::proofs::Puts::puts))]
fn print_function(out: &mut Printer, function: &Function) -> Result<(), NoMemory>
    ensures { OnOk result (out.new ≡ put_all out.old (spec.function function.now)) }
{
    print_specifiers(out, function.specifiers.as_slice())?;
    print_type(out, &function.result)?;
    print_function_name(out, &function.name)?;
    print_parameters(out, function.parameters.as_slice())?;
    out.word_if(function.is_const, Word::Const)?;
    out.word_if(function.is_noexcept, Word::Noexcept)?;
    print_block_or_semicolon(out, &function.body)?;
    Ok(())
}

fn print_brackets(out: &mut Printer, initializer: &MemberInitializer) -> Result<(), NoMemory>
    ensures { OnOk result (out.new ≡ put_all out.old (spec.bracketed initializer.now)) }
{
    match initializer.brackets {
        Brackets::Parentheses => print_in_parentheses(out, initializer.arguments.as_slice()),
        Brackets::Braces => print_in_braces(out, initializer.arguments.as_slice()),
    }
}

#[tactic(auto, using(crate::proofs::Puts::puts))]
fn print_member_initializer(
    out: &mut Printer,
    initializer: &MemberInitializer,
) -> Result<(), NoMemory>
    ensures { OnOk result (out.new ≡ put_all out.old (spec.member_initializer initializer.now)) }
{
    out.name(initializer.name.as_slice())?;
    print_brackets(out, initializer)?;
    Ok(())
}

// `:` before the first initializer, and `,` before each other.
fn initializer_mark(is_first: bool) -> Mark
    ensures { result ≡ (if is_first then mark.Colon else mark.Comma) }
{
    if is_first { Mark::Colon } else { Mark::Comma }
}

fn print_member_initializers(
    out: &mut Printer,
    initializers: &[MemberInitializer],
) -> Result<(), NoMemory>
    ensures { OnOk result (out.new ≡ put_all out.old (spec.member_initializers initializers.now)) }
{
    let mut is_first = true;
    for initializer in initializers {
        out.mark(initializer_mark(is_first))?;
        print_member_initializer(out, initializer)?;
        is_first = false;
    }
    Ok(())
}

#[tactic(auto, using(crate::proofs::Puts::puts))]
fn print_constructor_body(out: &mut Printer, body: &ConstructorBody) -> Result<(), NoMemory>
    ensures { OnOk result (out.new ≡ put_all out.old (spec.constructor_end body.now)) }
{
    match body {
        ConstructorBody::Block(initializers, block) => {
            print_member_initializers(out, initializers.as_slice())?;
            print_block(out, block)?;
            Ok(())
        }
        ConstructorBody::Default => {
            out.mark(Mark::Assign)?;
            out.word(Word::Default)?;
            out.mark(Mark::Semicolon)?;
            Ok(())
        }
        ConstructorBody::Delete => {
            out.mark(Mark::Assign)?;
            out.word(Word::Delete)?;
            out.mark(Mark::Semicolon)?;
            Ok(())
        }
    }
}

#[tactic(auto, using(crate::proofs::Puts::puts))]
fn print_constructor(out: &mut Printer, constructor: &Constructor) -> Result<(), NoMemory>
    ensures { OnOk result (out.new ≡ put_all out.old (spec.constructor constructor.now)) }
{
    out.word_if(constructor.is_explicit, Word::Explicit)?;
    out.name(constructor.name.as_slice())?;
    print_parameters(out, constructor.parameters.as_slice())?;
    out.word_if(constructor.is_noexcept, Word::Noexcept)?;
    print_constructor_body(out, &constructor.body)?;
    Ok(())
}

#[tactic(auto, using(crate::proofs::Puts::puts))]
fn print_destructor_body(out: &mut Printer, body: &DestructorBody) -> Result<(), NoMemory>
    ensures { OnOk result (out.new ≡ put_all out.old (spec.destructor_end body.now)) }
{
    match body {
        DestructorBody::Block(block) => print_block(out, block),
        DestructorBody::Default => {
            out.mark(Mark::Assign)?;
            out.word(Word::Default)?;
            out.mark(Mark::Semicolon)?;
            Ok(())
        }
    }
}

#[tactic(auto, using(crate::proofs::Puts::puts))]
fn print_destructor(out: &mut Printer, destructor: &Destructor) -> Result<(), NoMemory>
    ensures { OnOk result (out.new ≡ put_all out.old (spec.destructor destructor.now)) }
{
    out.mark(Mark::Tilde)?;
    out.name(destructor.name.as_slice())?;
    out.mark(Mark::OpenParen)?;
    out.mark(Mark::CloseParen)?;
    out.word_if(destructor.is_noexcept, Word::Noexcept)?;
    print_destructor_body(out, &destructor.body)?;
    Ok(())
}

#[cycle(members)]
fn print_members(out: &mut Printer, members: &[MemberDeclaration]) -> Result<(), NoMemory>
    ensures { OnOk result (out.new ≡ put_all out.old (spec.members members.now)) }
{
    for member in members {
        print_member(out, member)?;
    }
    Ok(())
}

#[cycle(members)]
#[tactic(auto, using(crate::proofs::Puts::puts))]
fn print_member(out: &mut Printer, member: &MemberDeclaration) -> Result<(), NoMemory>
    ensures { OnOk result (out.new ≡ put_all out.old (spec.member member.now)) }
{
    out.line();
    match member {
        MemberDeclaration::Access(specifier, _) => {
            out.word(access_word(*specifier))?;
            out.mark(Mark::Colon)?;
            Ok(())
        }
        MemberDeclaration::Class(key, name, members, _) => {
            out.word(key_word(*key))?;
            out.name(name.as_slice())?;
            out.mark(Mark::OpenBrace)?;
            print_members(out, members.as_slice())?;
            out.mark(Mark::CloseBrace)?;
            out.mark(Mark::Semicolon)?;
            Ok(())
        }
        MemberDeclaration::Forward(forward) => print_forward(out, forward),
        MemberDeclaration::Alias(alias) => print_alias(out, alias),
        MemberDeclaration::Field(variable) => print_variable(out, variable),
        MemberDeclaration::Method(function) => print_function(out, function),
        MemberDeclaration::Constructor(constructor) => print_constructor(out, constructor),
        MemberDeclaration::Destructor(destructor) => print_destructor(out, destructor),
    }
}

#[tactic(auto, using(crate::proofs::Puts::puts))]
fn print_class(out: &mut Printer, class: &ClassDefinition) -> Result<(), NoMemory>
    ensures { OnOk result (out.new ≡ put_all out.old (spec.class class.now)) }
{
    out.word(key_word(class.key))?;
    out.name(class.name.as_slice())?;
    out.mark(Mark::OpenBrace)?;
    print_members(out, class.members.as_slice())?;
    out.mark(Mark::CloseBrace)?;
    out.mark(Mark::Semicolon)?;
    Ok(())
}

#[tactic(auto, using(crate::proofs::Puts::puts))]
fn print_declaration(out: &mut Printer, declaration: &Declaration) -> Result<(), NoMemory>
    ensures { OnOk result (out.new ≡ put_all out.old (spec.item declaration.now)) }
{
    out.line();
    match declaration {
        Declaration::Class(class) => print_class(out, class),
        Declaration::Forward(forward) => print_forward(out, forward),
        Declaration::Alias(alias) => print_alias(out, alias),
        Declaration::Global(variable) => print_variable(out, variable),
        Declaration::Function(function) => print_function(out, function),
    }
}

pub fn print_declarations(out: &mut Printer, declarations: &[Declaration]) -> Result<(), NoMemory>
    ensures { OnOk result (out.new ≡ put_all out.old (spec.items declarations.now)) }
{
    for declaration in declarations {
        print_declaration(out, declaration)?;
    }
    Ok(())
}
