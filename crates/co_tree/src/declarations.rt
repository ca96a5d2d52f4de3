use crate::expressions::{Brackets, Expression};
use crate::statements::{Block, Variable};
use crate::types::TypeId;
use co_base::{Span, Text};
use sqlite_items::Items;

/// A parameter, or what a handler catches: its type, and a name where it has one [dcl.fct].
#[derive(Drop)]
pub struct Parameter {
    pub of: TypeId,
    pub name: Option<Text>,
    pub span: Span,
}

/// `struct` or `class` [class.pre].
#[derive(Clone, Copy)]
pub enum ClassKey {
    Struct,
    Class,
}

/// A class that is declared and not defined, as `struct S;` [class.pre].
#[derive(Drop)]
pub struct ForwardDeclaration {
    pub key: ClassKey,
    pub name: Text,
    pub span: Span,
}

/// `using NAME = type;` [dcl.typedef]
#[derive(Drop)]
pub struct AliasDeclaration {
    pub name: Text,
    pub of: TypeId,
    pub span: Span,
}

/// `static` or `inline` before a function [dcl.stc], [dcl.inline].
#[derive(Clone, Copy)]
pub enum FunctionSpecifier {
    Static,
    Inline,
}

#[derive(Drop)]
pub enum FunctionName {
    Name(Text),
    /// `operator co_await` [over.oper]
    OperatorCoAwait,
    /// `operator new` [class.free]
    OperatorNew,
    /// `operator delete`
    OperatorDelete,
}

/// A function of the file or of a class [dcl.fct]. One of a class has a body; `const` stands in a class alone.
#[derive(Drop)]
pub struct Function {
    pub specifiers: Items<FunctionSpecifier>,
    pub result: TypeId,
    pub name: FunctionName,
    pub parameters: Items<Parameter>,
    pub is_const: bool,
    pub is_noexcept: bool,
    /// None where `;` stands in its place.
    pub body: Option<Block>,
    pub span: Span,
}

/// A member of a class with its initializer, as `x(1)` or `x{1}` after the `:` of a constructor [class.base.init].
#[derive(Drop)]
pub struct MemberInitializer {
    pub name: Text,
    pub brackets: Brackets,
    pub arguments: Items<Expression>,
    pub span: Span,
}

/// What stands behind the head of a constructor [class.ctor].
#[derive(Drop)]
pub enum ConstructorBody {
    /// The initializers, with a `:` before them where there are some, and the block.
    Block(Items<MemberInitializer>, Block),
    /// `= default;`
    Default,
    /// `= delete;`
    Delete,
}

#[derive(Drop)]
pub struct Constructor {
    pub is_explicit: bool,
    pub name: Text,
    pub parameters: Items<Parameter>,
    pub is_noexcept: bool,
    pub body: ConstructorBody,
    pub span: Span,
}

/// What stands behind the head of a destructor [class.dtor].
#[derive(Drop)]
pub enum DestructorBody {
    Block(Block),
    /// `= default;`
    Default,
}

/// `~NAME()` with its body [class.dtor].
#[derive(Drop)]
pub struct Destructor {
    pub name: Text,
    pub is_noexcept: bool,
    pub body: DestructorBody,
    pub span: Span,
}

/// `public:`, `private:` or `protected:` [class.access.spec]
#[derive(Clone, Copy)]
pub enum AccessSpecifier {
    Public,
    Private,
    Protected,
}

/// A class with its members in the order of the text [class.mem].
#[derive(Drop)]
pub struct ClassDefinition {
    pub key: ClassKey,
    pub name: Text,
    pub members: Items<MemberDeclaration>,
    pub span: Span,
}

/// A member of a class [class.mem]. But for an access specifier the span is that of its field.
#[derive(Drop)]
pub enum MemberDeclaration {
    Access(AccessSpecifier, Span),
    /// A nested class: its key, its name, its members and its span [class.nest].
    Class(ClassKey, Text, Items<MemberDeclaration>, Span),
    Forward(ForwardDeclaration),
    Alias(AliasDeclaration),
    Field(Variable),
    Method(Function),
    Constructor(Constructor),
    Destructor(Destructor),
}

/// What a file declares [dcl.dcl]. The span is that of its field.
#[derive(Drop)]
pub enum Declaration {
    Class(ClassDefinition),
    Forward(ForwardDeclaration),
    Alias(AliasDeclaration),
    Global(Variable),
    Function(Function),
}

/// The declarations of a file in the order of the text [basic.link].
#[derive(Drop)]
pub struct Tree {
    pub declarations: Items<Declaration>,
}
