//! The rules of the grammar.
use crate::symbol::{Known, Nonterminal, Pattern, Symbol};
use co_lex::{Mark, Word};

/// The pattern of a token.
macro_rules! pattern {
    ("class key") => { Pattern::ClassKey };
    ("name") => { Pattern::Name };
    ("using") => { Pattern::Keyword(Word::Using) };
    ("=") => { Pattern::Punctuator(Mark::Assign) };
    (";") => { Pattern::Punctuator(Mark::Semicolon) };
    ("function specifier") => { Pattern::FunctionSpecifier };
    ("auto") => { Pattern::Keyword(Word::Auto) };
    ("const") => { Pattern::Keyword(Word::Const) };
    ("built-in type") => { Pattern::BuiltinType };
    ("std") => { Pattern::Spelled(Known::Std) };
    ("::") => { Pattern::Punctuator(Mark::Scope) };
    ("class name") => { Pattern::ClassName };
    ("other name") => { Pattern::OtherName };
    ("{") => { Pattern::Punctuator(Mark::OpenBrace) };
    ("}") => { Pattern::Punctuator(Mark::CloseBrace) };
    ("operator") => { Pattern::Keyword(Word::Operator) };
    ("co_await") => { Pattern::Keyword(Word::CoAwait) };
    ("(") => { Pattern::Punctuator(Mark::OpenParen) };
    (")") => { Pattern::Punctuator(Mark::CloseParen) };
    ("noexcept") => { Pattern::Keyword(Word::Noexcept) };
    ("access specifier") => { Pattern::AccessSpecifier };
    (":") => { Pattern::Punctuator(Mark::Colon) };
    ("explicit") => { Pattern::Keyword(Word::Explicit) };
    ("~") => { Pattern::Punctuator(Mark::Tilde) };
    ("*") => { Pattern::Punctuator(Mark::Star) };
    ("& or &&") => { Pattern::ReferenceMark };
    ("operator name") => { Pattern::OperatorName };
    ("default") => { Pattern::Keyword(Word::Default) };
    ("delete") => { Pattern::Keyword(Word::Delete) };
    (",") => { Pattern::Punctuator(Mark::Comma) };
    ("library object") => { Pattern::LibraryObject };
    ("coroutine_handle") => { Pattern::Spelled(Known::CoroutineHandle) };
    ("<") => { Pattern::Punctuator(Mark::Less) };
    (">") => { Pattern::Punctuator(Mark::Greater) };
    ("atomic") => { Pattern::Spelled(Known::Atomic) };
    ("int") => { Pattern::Keyword(Word::Int) };
    ("long") => { Pattern::Keyword(Word::Long) };
    ("bool") => { Pattern::Keyword(Word::Bool) };
    ("void") => { Pattern::Keyword(Word::Void) };
    ("try") => { Pattern::Keyword(Word::Try) };
    ("if") => { Pattern::Keyword(Word::If) };
    ("while") => { Pattern::Keyword(Word::While) };
    ("for") => { Pattern::Keyword(Word::For) };
    ("break") => { Pattern::Keyword(Word::Break) };
    ("continue") => { Pattern::Keyword(Word::Continue) };
    ("return") => { Pattern::Keyword(Word::Return) };
    ("co_return") => { Pattern::Keyword(Word::CoReturn) };
    ("co_yield") => { Pattern::Keyword(Word::CoYield) };
    ("throw") => { Pattern::Keyword(Word::Throw) };
    ("unary operator") => { Pattern::UnaryOperator };
    ("new") => { Pattern::Keyword(Word::New) };
    ("corun") => { Pattern::Spelled(Known::Corun) };
    ("static_cast") => { Pattern::Keyword(Word::StaticCast) };
    ("literal") => { Pattern::Literal };
    ("else") => { Pattern::Keyword(Word::Else) };
    ("catch") => { Pattern::Keyword(Word::Catch) };
    ("...") => { Pattern::Punctuator(Mark::Ellipsis) };
    ("handle function") => { Pattern::HandleFunction };
    ("library function") => { Pattern::LibraryFunction };
    (". or ->") => { Pattern::Access };
    ("++ or --") => { Pattern::Increment };
    ("binary operator") => { Pattern::BinaryOperator };
    ("assignment") => { Pattern::Assignment };
    ("?") => { Pattern::Punctuator(Mark::Question) };
    ("new or delete") => { Pattern::Allocation };
    ("text") => { Pattern::Spelled(Known::Text) };
    ("run function") => { Pattern::RunFunction };
    ("text literal") => { Pattern::Text };
    ("&") => { Pattern::Punctuator(Mark::And) };
}

/// A symbol of a body: `[X]` is X or nothing, `{X}` is X any number of times, and a text is a token.
macro_rules! symbol {
    (Close) => { Symbol::Close };
    ([$name:ident]) => { Symbol::Maybe(Nonterminal::$name) };
    ({$name:ident}) => { Symbol::Many(Nonterminal::$name) };
    ((Else)) => { Symbol::Greedy(Nonterminal::Else, pattern!("else")) };
    ((NewRest)) => { Symbol::Greedy(Nonterminal::NewRest, Pattern::NewMark) };
    ($name:ident) => { Symbol::One(Nonterminal::$name) };
    ($token:tt) => { Symbol::Token(pattern!($token)) };
}

/// Rules: the nonterminal, what its first token is, and what follows it.
macro_rules! rules {
    ($($of:ident { $($head:tt => [$($body:tt)*],)* })*) => {
        [$($((
            Nonterminal::$of,
            pattern!($head),
            &[$(symbol!($body)),*],
        ),)*)*]
    };
}

/// What a file declares [basic.link].
pub const FILE: [(Nonterminal, Pattern, &[Symbol]); 31] = rules! {
    Item {
        "class key" => ["name" ClassRest],
        "using" => ["name" "=" TypeId ";"],
        "function specifier" => [{Specifier} ResultType FunctionName],
        "auto" => [FunctionName],
        "const" => [Base [TypeRest] GlobalName],
        "built-in type" => [[TypeRest] GlobalName],
        "std" => ["::" LibraryType [TypeRest] GlobalName],
        "class name" => [[InnerClass] [TypeRest] GlobalName],
        "other name" => ["::" ClassPath [TypeRest] GlobalName],
    }
    Specifier {
        "function specifier" => [],
    }
    ClassRest {
        ";" => [],
        "{" => [{Member} "}" Close ";"],
    }
    ResultType {
        "auto" => [],
        "const" => [Base [TypeRest]],
        "built-in type" => [[TypeRest]],
        "std" => ["::" LibraryType [TypeRest]],
        "class name" => [[InnerClass] [TypeRest]],
        "other name" => ["::" ClassPath [TypeRest]],
    }
    GlobalName {
        "name" => [GlobalRest],
        "operator" => ["co_await" FunctionRest],
    }
    FunctionName {
        "name" => [FunctionRest],
        "operator" => ["co_await" FunctionRest],
    }
    GlobalRest {
        "=" => [Expression ";"],
        "{" => [[Arguments] "}" Close ";"],
        ";" => [],
        "(" => [[Parameters] ")" Close [Noexcept] FunctionBody],
    }
    FunctionRest {
        "(" => [[Parameters] ")" Close [Noexcept] FunctionBody],
    }
    FunctionBody {
        "{" => [{Statement} "}" Close],
        ";" => [],
    }
    Noexcept {
        "noexcept" => [],
    }
    Const {
        "const" => [],
    }
};

/// What a class declares [class.mem].
pub const CLASS: [(Nonterminal, Pattern, &[Symbol]); 41] = rules! {
    Member {
        "access specifier" => [":"],
        "class key" => ["name" ClassRest],
        "using" => ["name" "=" TypeId ";"],
        "explicit" => ["name" ConstructorRest],
        "~" => ["name" NoParameters [Noexcept] DestructorBody],
        "function specifier" => [{Specifier} ResultType MethodName],
        "auto" => [MethodName],
        "const" => [Base [TypeRest] FieldName],
        "built-in type" => [[TypeRest] FieldName],
        "std" => ["::" LibraryType [TypeRest] FieldName],
        "class name" => [MemberOfClass],
        "other name" => [MemberOfOther],
    }
    MemberOfClass {
        "(" => [[Parameters] ")" Close [Noexcept] ConstructorBody],
        "::" => [ClassPath [TypeRest] FieldName],
        "const" => [[Pointers] FieldName],
        "*" => [[Pointers] Close FieldName],
        "& or &&" => [FieldName],
        "name" => [FieldRest],
        "operator" => ["operator name" MethodRest],
    }
    MemberOfOther {
        "(" => [[Parameters] ")" Close [Noexcept] ConstructorBody],
        "::" => [ClassPath [TypeRest] FieldName],
    }
    MethodName {
        "name" => [MethodRest],
        "operator" => ["operator name" MethodRest],
    }
    FieldName {
        "name" => [FieldRest],
        "operator" => ["operator name" MethodRest],
    }
    MethodRest {
        "(" => [[Parameters] ")" Close [Const] [Noexcept] Block],
    }
    FieldRest {
        "=" => [Expression ";"],
        "{" => [[Arguments] "}" Close ";"],
        ";" => [],
        "(" => [[Parameters] ")" Close [Const] [Noexcept] Block],
    }
    ConstructorRest {
        "(" => [[Parameters] ")" Close [Noexcept] ConstructorBody],
    }
    ConstructorBody {
        ":" => [Initializer {NextInitializer} Block],
        "{" => [{Statement} "}" Close],
        "=" => [Defaulted ";"],
    }
    Defaulted {
        "default" => [],
        "delete" => [],
    }
    Initializer {
        "name" => [Built],
    }
    NextInitializer {
        "," => [Initializer],
    }
    NoParameters {
        "(" => [")" Close],
    }
    DestructorBody {
        "{" => [{Statement} "}" Close],
        "=" => ["default" ";"],
    }
};

/// Parameters and types [dcl.type] [dcl.fct].
pub const TYPE: [(Nonterminal, Pattern, &[Symbol]); 32] = rules! {
    Parameters {
        "const" => [Base [TypeRest] [ParameterName] {NextParameter}],
        "built-in type" => [[TypeRest] [ParameterName] {NextParameter}],
        "std" => ["::" LibraryType [TypeRest] [ParameterName] {NextParameter}],
        "class name" => [[InnerClass] [TypeRest] [ParameterName] {NextParameter}],
        "other name" => ["::" ClassPath [TypeRest] [ParameterName] {NextParameter}],
    }
    NextParameter {
        "," => [TypeId [ParameterName]],
    }
    ParameterName {
        "name" => [],
    }
    TypeId {
        "const" => [Base [TypeRest]],
        "built-in type" => [[TypeRest]],
        "std" => ["::" LibraryType [TypeRest]],
        "class name" => [[InnerClass] [TypeRest]],
        "other name" => ["::" ClassPath [TypeRest]],
    }
    Base {
        "built-in type" => [],
        "std" => ["::" LibraryType],
        "class name" => [[InnerClass]],
        "other name" => ["::" ClassPath],
    }
    InnerClass {
        "::" => [ClassPath],
    }
    ClassPath {
        "class name" => [[InnerClass]],
        "other name" => ["::" ClassPath],
    }
    LibraryType {
        "library object" => [],
        "coroutine_handle" => ["<" [ClassPath] ">"],
        "atomic" => ["<" AtomicArgument],
    }
    AtomicArgument {
        "int" => [">"],
        "long" => [">"],
        "bool" => [">"],
        "void" => [AtomicPointer],
    }
    AtomicPointer {
        "*" => [">" Close],
    }
    TypeRest {
        "const" => [[Pointers]],
        "*" => [[Pointers] Close],
        "& or &&" => [],
    }
    Pointers {
        "*" => [[Pointers] Close],
        "& or &&" => [],
    }
};

/// Statements [stmt.pre].
pub const STATEMENT: [(Nonterminal, Pattern, &[Symbol]); 30] = rules! {
    Block {
        "{" => [{Statement} "}" Close],
    }
    Statement {
        "{" => [{Statement} "}" Close],
        ";" => [],
        "try" => [Block Catch {Catch}],
        "if" => [Condition Statement (Else) Close],
        "while" => [Condition Statement Close],
        "for" => [ForHead Statement Close],
        "break" => [";"],
        "continue" => [";"],
        "return" => [[Value] ";"],
        "co_return" => [[Expression] ";"],
        "co_yield" => [Expression Close ";"],
        "throw" => [[Expression] Close ";"],
        "unary operator" => [Unary Close [Operators] [ExpressionRest] ";"],
        "new" => [Base (NewRest) Close [Operators] [ExpressionRest] ";"],
        "delete" => [Unary Close [Operators] [ExpressionRest] ";"],
        "::" => [GlobalScope [Operators] [ExpressionRest] ";"],
        "(" => [Expression ")" Close [Postfix] [Operators] [ExpressionRest] ";"],
        "corun" => ["::" RunName [Postfix] [Operators] [ExpressionRest] ";"],
        "static_cast" => ["<" TypeId ">" Condition [Postfix] [Operators] [ExpressionRest] ";"],
        "literal" => [[Postfix] [Operators] [ExpressionRest] ";"],
        "const" => [Base [TypeRest] "name" [LocalRest] ";"],
        "auto" => [[Reference] "name" [LocalRest] ";"],
        "built-in type" => [AfterBuiltin ";"],
        "std" => ["::" LibraryStatement ";"],
        "class name" => [AfterClass ";"],
        "other name" => [[AfterOther] ";"],
    }
    Else {
        "else" => [Statement],
    }
    Condition {
        "(" => [Expression ")" Close],
    }
    ForHead {
        "(" => [ForInit [Expression] ";" [Expression] ")" Close],
    }
};

/// What `for` and `catch` have in their parentheses [stmt.for] [except.pre].
pub const HEAD: [(Nonterminal, Pattern, &[Symbol]); 25] = rules! {
    ForInit {
        ";" => [],
        "co_yield" => [Expression Close ";"],
        "throw" => [[Expression] Close ";"],
        "unary operator" => [Unary Close [Operators] [ExpressionRest] ";"],
        "new" => [Base (NewRest) Close [Operators] [ExpressionRest] ";"],
        "delete" => [Unary Close [Operators] [ExpressionRest] ";"],
        "::" => [GlobalScope [Operators] [ExpressionRest] ";"],
        "(" => [Expression ")" Close [Postfix] [Operators] [ExpressionRest] ";"],
        "corun" => ["::" RunName [Postfix] [Operators] [ExpressionRest] ";"],
        "static_cast" => ["<" TypeId ">" Condition [Postfix] [Operators] [ExpressionRest] ";"],
        "literal" => [[Postfix] [Operators] [ExpressionRest] ";"],
        "const" => [Base [TypeRest] "name" [LocalRest] ";"],
        "auto" => [[Reference] "name" [LocalRest] ";"],
        "built-in type" => [AfterBuiltin ";"],
        "std" => ["::" LibraryStatement ";"],
        "class name" => [AfterClass ";"],
        "other name" => [[AfterOther] ";"],
    }
    Catch {
        "catch" => [CatchHead Block],
    }
    CatchHead {
        "(" => [CatchParameter ")" Close],
    }
    CatchParameter {
        "..." => [],
        "const" => [Base [TypeRest] [ParameterName]],
        "built-in type" => [[TypeRest] [ParameterName]],
        "std" => ["::" LibraryType [TypeRest] [ParameterName]],
        "class name" => [[InnerClass] [TypeRest] [ParameterName]],
        "other name" => ["::" ClassPath [TypeRest] [ParameterName]],
    }
};

/// The rest of a statement that begins with a type or a path [stmt.dcl].
pub const LOCAL: [(Nonterminal, Pattern, &[Symbol]); 35] = rules! {
    AfterBuiltin {
        "const" => [[Pointers] "name" [LocalRest]],
        "*" => [[Pointers] Close "name" [LocalRest]],
        "& or &&" => ["name" [LocalRest]],
        "name" => [[LocalRest]],
        "(" => [[Arguments] ")" Close [Postfix] [Operators] [ExpressionRest]],
        "{" => [[Arguments] "}" Close [Postfix] [Operators] [ExpressionRest]],
    }
    AfterClass {
        "::" => [StatementPath],
        "const" => [[Pointers] "name" [LocalRest]],
        "*" => [[Pointers] Close "name" [LocalRest]],
        "& or &&" => ["name" [LocalRest]],
        "name" => [[LocalRest]],
        "{" => [[Arguments] "}" Close [Postfix] [Operators] [ExpressionRest]],
    }
    AfterHandle {
        "::" => ["handle function" [Postfix] [Operators] [ExpressionRest]],
        "const" => [[Pointers] "name" [LocalRest]],
        "*" => [[Pointers] Close "name" [LocalRest]],
        "& or &&" => ["name" [LocalRest]],
        "name" => [[LocalRest]],
        "(" => [[Arguments] ")" Close [Postfix] [Operators] [ExpressionRest]],
        "{" => [[Arguments] "}" Close [Postfix] [Operators] [ExpressionRest]],
    }
    LibraryStatement {
        "library function" => [[Postfix] [Operators] [ExpressionRest]],
        "library object" => [AfterBuiltin],
        "atomic" => ["<" AtomicArgument AfterBuiltin],
        "coroutine_handle" => ["<" [ClassPath] ">" AfterHandle],
    }
    StatementPath {
        "class name" => [AfterClass],
        "other name" => [[AfterOther]],
    }
    AfterOther {
        "::" => [StatementPath],
        ". or ->" => ["name" [Postfix] Close [Operators] [ExpressionRest]],
        "(" => [[Arguments] ")" [Postfix] Close [Operators] [ExpressionRest]],
        "++ or --" => [[Postfix] Close [Operators] [ExpressionRest]],
        "binary operator" => [Unary [Operators] Close [ExpressionRest]],
        "assignment" => [Expression Close],
        "?" => [Expression ":" Expression Close],
    }
    LocalRest {
        "=" => [Value],
        "(" => [FirstArgument {NextArgument} ")" Close],
        "{" => [[Arguments] "}" Close],
    }
};

/// Expressions, and braces in their place [expr] [dcl.init].
pub const VALUE: [(Nonterminal, Pattern, &[Symbol]); 29] = rules! {
    Value {
        "co_yield" => [Expression Close],
        "throw" => [[Expression] Close],
        "unary operator" => [Unary Close [Operators] [ExpressionRest]],
        "new" => [Base (NewRest) Close [Operators] [ExpressionRest]],
        "delete" => [Unary Close [Operators] [ExpressionRest]],
        "::" => [GlobalScope [Operators] [ExpressionRest]],
        "(" => [Expression ")" Close [Postfix] [Operators] [ExpressionRest]],
        "corun" => ["::" RunName [Postfix] [Operators] [ExpressionRest]],
        "static_cast" => ["<" TypeId ">" Condition [Postfix] [Operators] [ExpressionRest]],
        "literal" => [[Postfix] [Operators] [ExpressionRest]],
        "built-in type" => [Built [Postfix] [Operators] [ExpressionRest]],
        "std" => ["::" LibraryOperand [Postfix] [Operators] [ExpressionRest]],
        "class name" => [ClassOperand [Postfix] [Operators] [ExpressionRest]],
        "other name" => [[Scope] [Postfix] [Operators] [ExpressionRest]],
        "{" => [[Arguments] "}" Close],
    }
    Expression {
        "co_yield" => [Expression Close],
        "throw" => [[Expression] Close],
        "unary operator" => [Unary Close [Operators] [ExpressionRest]],
        "new" => [Base (NewRest) Close [Operators] [ExpressionRest]],
        "delete" => [Unary Close [Operators] [ExpressionRest]],
        "::" => [GlobalScope [Operators] [ExpressionRest]],
        "(" => [Expression ")" Close [Postfix] [Operators] [ExpressionRest]],
        "corun" => ["::" RunName [Postfix] [Operators] [ExpressionRest]],
        "static_cast" => ["<" TypeId ">" Condition [Postfix] [Operators] [ExpressionRest]],
        "literal" => [[Postfix] [Operators] [ExpressionRest]],
        "built-in type" => [Built [Postfix] [Operators] [ExpressionRest]],
        "std" => ["::" LibraryOperand [Postfix] [Operators] [ExpressionRest]],
        "class name" => [ClassOperand [Postfix] [Operators] [ExpressionRest]],
        "other name" => [[Scope] [Postfix] [Operators] [ExpressionRest]],
    }
};

/// Arguments [expr.call].
pub const ARGUMENT: [(Nonterminal, Pattern, &[Symbol]); 31] = rules! {
    Arguments {
        "co_yield" => [Expression Close {NextArgument}],
        "throw" => [[Expression] Close {NextArgument}],
        "unary operator" => [Unary Close [Operators] [ExpressionRest] {NextArgument}],
        "new" => [Base (NewRest) Close [Operators] [ExpressionRest] {NextArgument}],
        "delete" => [Unary Close [Operators] [ExpressionRest] {NextArgument}],
        "::" => [GlobalScope [Operators] [ExpressionRest] {NextArgument}],
        "(" => [Expression ")" Close [Postfix] [Operators] [ExpressionRest] {NextArgument}],
        "corun" => ["::" RunName [Postfix] [Operators] [ExpressionRest] {NextArgument}],
        "static_cast" => ["<" TypeId ">" Condition [Postfix] [Operators] [ExpressionRest] {NextArgument}],
        "literal" => [[Postfix] [Operators] [ExpressionRest] {NextArgument}],
        "built-in type" => [Built [Postfix] [Operators] [ExpressionRest] {NextArgument}],
        "std" => ["::" LibraryOperand [Postfix] [Operators] [ExpressionRest] {NextArgument}],
        "class name" => [ClassOperand [Postfix] [Operators] [ExpressionRest] {NextArgument}],
        "other name" => [[Scope] [Postfix] [Operators] [ExpressionRest] {NextArgument}],
    }
    NextArgument {
        "," => [Expression],
    }
    FirstArgument {
        "co_yield" => [Expression Close],
        "throw" => [[Expression] Close],
        "unary operator" => [Unary Close [Operators] [ExpressionRest]],
        "new" => [Base (NewRest) Close [Operators] [ExpressionRest]],
        "delete" => [Unary Close [Operators] [ExpressionRest]],
        "::" => [GlobalScope [Operators] [ExpressionRest]],
        "(" => [Expression ")" Close [Postfix] [Operators] [ExpressionRest]],
        "corun" => ["::" RunName [Postfix] [Operators] [ExpressionRest]],
        "static_cast" => ["<" TypeId ">" Condition [Postfix] [Operators] [ExpressionRest]],
        "literal" => [[Postfix] [Operators] [ExpressionRest]],
        "std" => ["::" "library function" [Postfix] [Operators] [ExpressionRest]],
        "class name" => ["::" FirstPath [Postfix] [Operators] [ExpressionRest]],
        "other name" => [[FirstScope] [Postfix] [Operators] [ExpressionRest]],
    }
    FirstScope {
        "::" => [FirstPath],
    }
    FirstPath {
        "class name" => ["::" FirstPath],
        "other name" => [[FirstScope]],
    }
};

/// Unary expressions [expr.unary].
pub const UNARY: [(Nonterminal, Pattern, &[Symbol]); 22] = rules! {
    Unary {
        "unary operator" => [Unary Close],
        "new" => [Base (NewRest) Close],
        "delete" => [Unary Close],
        "::" => [GlobalScope],
        "(" => [Expression ")" Close [Postfix]],
        "corun" => ["::" RunName [Postfix]],
        "static_cast" => ["<" TypeId ">" Condition [Postfix]],
        "literal" => [[Postfix]],
        "built-in type" => [Built [Postfix]],
        "std" => ["::" LibraryOperand [Postfix]],
        "class name" => [ClassOperand [Postfix]],
        "other name" => [[Scope] [Postfix]],
    }
    GlobalScope {
        "new" => [Base (NewRest) Close],
        "delete" => [Unary Close],
        "operator" => ["new or delete" GivenArguments [Postfix]],
    }
    GivenArguments {
        "(" => [Arguments ")" Close],
    }
    NewRest {
        "*" => [(NewRest) Close],
        "(" => [[Arguments] ")" Close],
        "{" => [[Arguments] "}" Close],
    }
    RunName {
        "text" => [TextArgument],
        "run function" => [],
    }
    TextArgument {
        "(" => ["text literal" ")" Close],
    }
};

/// The rest of operands and expressions [expr.post].
pub const OPERAND: [(Nonterminal, Pattern, &[Symbol]); 22] = rules! {
    Built {
        "(" => [[Arguments] ")" Close],
        "{" => [[Arguments] "}" Close],
    }
    LibraryOperand {
        "library function" => [],
        "library object" => [Built],
        "atomic" => ["<" AtomicArgument Built],
        "coroutine_handle" => ["<" [ClassPath] ">" HandleOperand],
    }
    HandleOperand {
        "::" => ["handle function"],
        "(" => [[Arguments] ")" Close],
        "{" => [[Arguments] "}" Close],
    }
    ClassOperand {
        "::" => [Path],
        "(" => [[Arguments] ")" Close],
        "{" => [[Arguments] "}" Close],
    }
    Scope {
        "::" => [Path],
    }
    Path {
        "class name" => [ClassOperand],
        "other name" => [[Scope]],
    }
    Postfix {
        ". or ->" => ["name" [Postfix] Close],
        "(" => [[Arguments] ")" [Postfix] Close],
        "++ or --" => [[Postfix] Close],
    }
    Operators {
        "binary operator" => [Unary [Operators] Close],
    }
    ExpressionRest {
        "assignment" => [Expression Close],
        "?" => [Expression ":" Expression Close],
    }
    Reference {
        "&" => [],
    }
};
