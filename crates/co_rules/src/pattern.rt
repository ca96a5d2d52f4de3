ghost use Rattle.std.specs.Prelude.{◌≡◌};
ghost use Rattle.co_rules.specs.Pattern as spec;

use crate::symbol::{Known, Pattern, Terminal};
use co_lex::{Mark, Word};

const LITERALS: [Word; 4] = [Word::True, Word::False, Word::Nullptr, Word::This];

const BUILTINS: [Word; 4] = [Word::Void, Word::Bool, Word::Int, Word::Long];

const ACCESSES: [Word; 3] = [Word::Public, Word::Private, Word::Protected];

const CLASS_KEYS: [Word; 2] = [Word::Struct, Word::Class];

const SPECIFIERS: [Word; 2] = [Word::Static, Word::Inline];

const ALLOCATIONS: [Word; 2] = [Word::New, Word::Delete];

const OPERATOR_NAMES: [Word; 3] = [Word::CoAwait, Word::New, Word::Delete];

fn admits_word(pattern: Pattern, word: Word) -> bool
    ensures { result ≡ spec.admits_word pattern word }
{
    match pattern {
        Pattern::Keyword(only) => only == word,
        Pattern::UnaryOperator => word == Word::CoAwait,
        Pattern::Literal => LITERALS.contains(&word),
        Pattern::BuiltinType => BUILTINS.contains(&word),
        Pattern::AccessSpecifier => ACCESSES.contains(&word),
        Pattern::ClassKey => CLASS_KEYS.contains(&word),
        Pattern::FunctionSpecifier => SPECIFIERS.contains(&word),
        Pattern::Allocation => ALLOCATIONS.contains(&word),
        Pattern::OperatorName => OPERATOR_NAMES.contains(&word),
        _ => false,
    }
}

const UNARY: [Mark; 8] = [
    Mark::Plus,
    Mark::Minus,
    Mark::Not,
    Mark::Tilde,
    Mark::Star,
    Mark::And,
    Mark::Increment,
    Mark::Decrement,
];

const BINARY: [Mark; 18] = [
    Mark::OrOr,
    Mark::AndAnd,
    Mark::Or,
    Mark::Xor,
    Mark::And,
    Mark::Equal,
    Mark::NotEqual,
    Mark::Less,
    Mark::LessEqual,
    Mark::Greater,
    Mark::GreaterEqual,
    Mark::Shl,
    Mark::Shr,
    Mark::Plus,
    Mark::Minus,
    Mark::Star,
    Mark::Slash,
    Mark::Percent,
];

const ASSIGNMENTS: [Mark; 11] = [
    Mark::Assign,
    Mark::AddAssign,
    Mark::SubAssign,
    Mark::MulAssign,
    Mark::DivAssign,
    Mark::RemAssign,
    Mark::AndAssign,
    Mark::OrAssign,
    Mark::XorAssign,
    Mark::ShlAssign,
    Mark::ShrAssign,
];

const INCREMENTS: [Mark; 2] = [Mark::Increment, Mark::Decrement];

const MEMBER_ACCESSES: [Mark; 2] = [Mark::Dot, Mark::Arrow];

const REFERENCES: [Mark; 2] = [Mark::And, Mark::AndAnd];

const NEW_MARKS: [Mark; 5] = [
    Mark::Star,
    Mark::And,
    Mark::AndAnd,
    Mark::OpenParen,
    Mark::OpenBrace,
];

fn admits_mark(pattern: Pattern, mark: Mark) -> bool
    ensures { result ≡ spec.admits_mark pattern mark }
{
    match pattern {
        Pattern::Punctuator(only) => only == mark,
        Pattern::UnaryOperator => UNARY.contains(&mark),
        Pattern::BinaryOperator => BINARY.contains(&mark),
        Pattern::Assignment => ASSIGNMENTS.contains(&mark),
        Pattern::Increment => INCREMENTS.contains(&mark),
        Pattern::Access => MEMBER_ACCESSES.contains(&mark),
        Pattern::ReferenceMark => REFERENCES.contains(&mark),
        Pattern::NewMark => NEW_MARKS.contains(&mark),
        _ => false,
    }
}

const LIBRARY_OBJECTS: [Known; 4] = [
    Known::SizeT,
    Known::ExceptionPtr,
    Known::SuspendAlways,
    Known::SuspendNever,
];

const LIBRARY_FUNCTIONS: [Known; 6] = [
    Known::Move,
    Known::Exchange,
    Known::NoopCoroutine,
    Known::Terminate,
    Known::CurrentException,
    Known::RethrowException,
];

const HANDLE_FUNCTIONS: [Known; 2] = [Known::FromAddress, Known::FromPromise];

const RUN_FUNCTIONS: [Known; 4] = [Known::Print, Known::Post, Known::Input, Known::Inputs];

const NAMES: [Known; 20] = [
    Known::Other,
    Known::SizeT,
    Known::ExceptionPtr,
    Known::SuspendAlways,
    Known::SuspendNever,
    Known::CoroutineHandle,
    Known::Atomic,
    Known::Move,
    Known::Exchange,
    Known::NoopCoroutine,
    Known::Terminate,
    Known::CurrentException,
    Known::RethrowException,
    Known::Text,
    Known::Print,
    Known::Post,
    Known::Input,
    Known::Inputs,
    Known::FromAddress,
    Known::FromPromise,
];

/// Whether the name is one that a file may declare: any but `std` and `corun`.
pub fn is_plain(known: Known) -> bool
    ensures { result ≡ spec.is_plain known }
{
    NAMES.contains(&known)
}

fn admits_name(pattern: Pattern, is_class: bool, known: Known) -> bool
    ensures { result ≡ spec.admits_name pattern is_class known }
{
    match pattern {
        Pattern::Spelled(only) => only == known,
        Pattern::Name => is_plain(known),
        Pattern::ClassName => is_class && is_plain(known),
        Pattern::OtherName => !is_class && is_plain(known),
        Pattern::LibraryObject => LIBRARY_OBJECTS.contains(&known),
        Pattern::LibraryFunction => LIBRARY_FUNCTIONS.contains(&known),
        Pattern::HandleFunction => HANDLE_FUNCTIONS.contains(&known),
        Pattern::RunFunction => RUN_FUNCTIONS.contains(&known),
        _ => false,
    }
}

/// Whether the terminal is one of the pattern's.
#[tactic(auto, unfolding(crate::specs::Pattern::admits))]
pub fn admits(pattern: Pattern, terminal: Terminal) -> bool
    ensures { result ≡ spec.admits pattern terminal }
{
    match terminal {
        Terminal::Word(word) => admits_word(pattern, word),
        Terminal::Mark(mark) => admits_mark(pattern, mark),
        Terminal::Number => matches!(pattern, Pattern::Literal),
        Terminal::Text => matches!(pattern, Pattern::Text),
        Terminal::Name(is_class, known) => admits_name(pattern, is_class, known),
        Terminal::End => matches!(pattern, Pattern::End),
    }
}
