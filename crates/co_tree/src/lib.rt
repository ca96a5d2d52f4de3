//! The tree of a file: one enum or struct for each rule of the grammar, with the place of its first token on each node.
#![tactic(auto)]

mod declarations;
mod expressions;
mod laws;
mod statements;
mod types;

pub use declarations::{
    AccessSpecifier, AliasDeclaration, ClassDefinition, ClassKey, Constructor, ConstructorBody,
    Declaration, Destructor, DestructorBody, ForwardDeclaration, Function, FunctionName,
    FunctionSpecifier, MemberDeclaration, MemberInitializer, Parameter, Tree,
};
pub use expressions::{
    AssignmentOperator, BinaryOperator, Brackets, CorunFunction, Expression, HandleFunction,
    MemberOperator, StandardFunction, StepOperator, UnaryOperator,
};
pub use laws::reads_tokens;
pub use statements::{Block, Caught, ForInit, Handler, Initializer, Returned, Statement, Variable};
pub use types::{Path, Reference, SimpleType, SimpleTypeKind, TypeId};
