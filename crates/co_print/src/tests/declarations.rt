use super::builders::{AT, block, path, plain, text, two, x};
use crate::print_tree;
use co_base::NoMemory;
use co_tree::{
    AccessSpecifier, AliasDeclaration, Brackets, ClassDefinition, ClassKey, Constructor,
    ConstructorBody, Declaration, Destructor, DestructorBody, ForwardDeclaration, Function,
    FunctionName, FunctionSpecifier, Initializer, MemberDeclaration, MemberInitializer, Parameter,
    Reference, SimpleTypeKind, Tree, TypeId, Variable,
};
use sqlite_items::Items;
use std::alloc::Global;
use std::test::Fail;

fn parameters(alloc: Global) -> Result<Items<Parameter>, NoMemory> {
    let mut all = Items::new(alloc);
    all.push(Parameter {
        of: TypeId {
            is_const: true,
            pointers: 1,
            reference: Reference::Lvalue,
            ..plain(SimpleTypeKind::Class(path(alloc, b"S")?))
        },
        name: Some(text(alloc, b"s")?),
        span: AT,
    })?;
    all.push(Parameter {
        of: plain(SimpleTypeKind::Handle(None)),
        name: None,
        span: AT,
    })?;
    Ok(all)
}

fn method(alloc: Global, name: FunctionName) -> Result<Function, NoMemory> {
    let mut specifiers = Items::new(alloc);
    specifiers.push(FunctionSpecifier::Static)?;
    specifiers.push(FunctionSpecifier::Inline)?;
    Ok(Function {
        specifiers,
        result: plain(SimpleTypeKind::Void),
        name,
        parameters: parameters(alloc)?,
        is_const: true,
        is_noexcept: true,
        body: Some(block(Items::new(alloc))),
        span: AT,
    })
}

fn constructor(alloc: Global, body: ConstructorBody) -> Result<MemberDeclaration, NoMemory> {
    Ok(MemberDeclaration::Constructor(Constructor {
        is_explicit: true,
        name: text(alloc, b"S")?,
        parameters: Items::new(alloc),
        is_noexcept: false,
        body,
        span: AT,
    }))
}

fn initializers(alloc: Global) -> Result<Items<MemberInitializer>, NoMemory> {
    let mut all = Items::new(alloc);
    all.push(MemberInitializer {
        name: text(alloc, b"a")?,
        brackets: Brackets::Parentheses,
        arguments: Items::new(alloc),
        span: AT,
    })?;
    all.push(MemberInitializer {
        name: text(alloc, b"b")?,
        brackets: Brackets::Braces,
        arguments: two(alloc)?,
        span: AT,
    })?;
    Ok(all)
}

fn destructor(alloc: Global, body: DestructorBody) -> Result<MemberDeclaration, NoMemory> {
    Ok(MemberDeclaration::Destructor(Destructor {
        name: text(alloc, b"S")?,
        is_noexcept: true,
        body,
        span: AT,
    }))
}

fn members(alloc: Global) -> Result<Items<MemberDeclaration>, NoMemory> {
    let mut all = Items::new(alloc);
    all.push(MemberDeclaration::Access(AccessSpecifier::Public, AT))?;
    all.push(MemberDeclaration::Class(ClassKey::Class, text(alloc, b"N")?, Items::new(alloc), AT))?;
    all.push(MemberDeclaration::Alias(alias(alloc)?))?;
    all.push(MemberDeclaration::Field(variable(alloc)?))?;
    all.push(MemberDeclaration::Method(method(alloc, FunctionName::OperatorDelete)?))?;
    let body = ConstructorBody::Block(initializers(alloc)?, block(Items::new(alloc)));
    all.push(constructor(alloc, body)?)?;
    all.push(constructor(alloc, ConstructorBody::Delete)?)?;
    all.push(destructor(alloc, DestructorBody::Default)?)?;
    all.push(destructor(alloc, DestructorBody::Block(block(Items::new(alloc))))?)?;
    Ok(all)
}

fn alias(alloc: Global) -> Result<AliasDeclaration, NoMemory> {
    Ok(AliasDeclaration {
        name: text(alloc, b"A")?,
        of: plain(SimpleTypeKind::Bool),
        span: AT,
    })
}

fn variable(alloc: Global) -> Result<Variable, NoMemory> {
    Ok(Variable {
        of: plain(SimpleTypeKind::SuspendNever),
        name: text(alloc, b"v")?,
        initializer: Initializer::Equals(x(alloc)?),
        span: AT,
    })
}

fn tree(alloc: Global) -> Result<Tree, NoMemory> {
    let mut all = Items::new(alloc);
    all.push(Declaration::Forward(ForwardDeclaration {
        key: ClassKey::Struct,
        name: text(alloc, b"S")?,
        span: AT,
    }))?;
    all.push(Declaration::Class(ClassDefinition {
        key: ClassKey::Struct,
        name: text(alloc, b"S")?,
        members: members(alloc)?,
        span: AT,
    }))?;
    all.push(Declaration::Alias(alias(alloc)?))?;
    all.push(Declaration::Global(variable(alloc)?))?;
    let function = Function {
        body: None,
        ..method(alloc, FunctionName::OperatorCoAwait)?
    };
    all.push(Declaration::Function(function))?;
    Ok(Tree { declarations: all })
}

#[test]
fn declarations_stand_on_lines(rt: HostRuntime) -> Result<(), Fail> {
    let alloc = rt.alloc();
    let printed = print_tree(alloc, &tree(alloc)?)?;
    let wanted =
        b"struct S ;\nstruct S {\npublic :\nclass N { } ;\nusing A = bool ;\nstd :: suspend_never v = x ;\nstatic inline void operator delete ( const S * & s , std :: coroutine_handle < > ) const noexcept { }\nexplicit S ( ) : a ( ) , b { x , 2 } { }\nexplicit S ( ) = delete ;\n~ S ( ) noexcept = default ;\n~ S ( ) noexcept { } } ;\nusing A = bool ;\nstd :: suspend_never v = x ;\nstatic inline void operator co_await ( const S * & s , std :: coroutine_handle < > ) const noexcept ;\n";
    assert!(rt; printed.as_slice() == wanted.as_slice());
    Ok(())
}

#[test]
fn an_empty_file_has_no_text(rt: HostRuntime) -> Result<(), Fail> {
    let alloc = rt.alloc();
    let empty = Tree {
        declarations: Items::new(alloc),
    };
    assert!(rt; print_tree(alloc, &empty)?.is_empty());
    Ok(())
}
