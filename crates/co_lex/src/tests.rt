use crate::{LexFault, Token, TokenKind, lex};
use co_base::{Num, Span, Text};
use std::alloc::Global;
use std::process::Abort;
use std::test::Fail;

/// A text, and its tokens or its fault, written by hand from [lex].
type Row = (&'static [u8], &'static str);

const WORDS: [Row; 1] = [(
    b"auto bool break catch class co_await co_return co_yield const continue default delete else explicit false for if inline int long new noexcept nullptr operator private protected public return static static_cast struct this throw true try using void while alignas alignof case char concept const_cast consteval constexpr constinit decltype do double dynamic_cast enum export extern float friend goto mutable namespace reinterpret_cast requires short signed sizeof static_assert switch template thread_local typedef typeid typename union unsigned virtual volatile",
    "1:1 Auto 1:6 Bool 1:11 Break 1:17 Catch 1:23 Class 1:29 CoAwait 1:38 CoReturn 1:48 CoYield 1:57 Const 1:63 Continue 1:72 Default 1:80 Delete 1:87 Else 1:92 Explicit 1:101 False 1:107 For 1:111 If 1:114 Inline 1:121 Int 1:125 Long 1:130 New 1:134 Noexcept 1:143 Nullptr 1:151 Operator 1:160 Private 1:168 Protected 1:178 Public 1:185 Return 1:192 Static 1:199 StaticCast 1:211 Struct 1:218 This 1:223 Throw 1:229 True 1:234 Try 1:238 Using 1:244 Void 1:249 While 1:255 Alignas 1:263 Alignof 1:271 Case 1:276 Char 1:281 Concept 1:289 ConstCast 1:300 Consteval 1:310 Constexpr 1:320 Constinit 1:330 Decltype 1:339 Do 1:342 Double 1:349 DynamicCast 1:362 Enum 1:367 Export 1:374 Extern 1:381 Float 1:387 Friend 1:394 Goto 1:399 Mutable 1:407 Namespace 1:417 ReinterpretCast 1:434 Requires 1:443 Short 1:449 Signed 1:456 Sizeof 1:463 StaticAssert 1:477 Switch 1:484 Template 1:493 ThreadLocal 1:506 Typedef 1:514 Typeid 1:521 Typename 1:530 Union 1:536 Unsigned 1:545 Virtual 1:553 Volatile 1:561 End",
)];

const MARKS: [Row; 1] = [(
    b"<<= >>= ... :: -> ++ -- << >> <= >= == != && || += -= *= /= %= &= |= ^= { } ( ) ; : , . ? ~ ! + - * / % < > = & | ^",
    "1:1 ShlAssign 1:5 ShrAssign 1:9 Ellipsis 1:13 Scope 1:16 Arrow 1:19 Increment 1:22 Decrement 1:25 Shl 1:28 Shr 1:31 LessEqual 1:34 GreaterEqual 1:37 Equal 1:40 NotEqual 1:43 AndAnd 1:46 OrOr 1:49 AddAssign 1:52 SubAssign 1:55 MulAssign 1:58 DivAssign 1:61 RemAssign 1:64 AndAssign 1:67 OrAssign 1:70 XorAssign 1:73 OpenBrace 1:75 CloseBrace 1:77 OpenParen 1:79 CloseParen 1:81 Semicolon 1:83 Colon 1:85 Comma 1:87 Dot 1:89 Question 1:91 Tilde 1:93 Not 1:95 Plus 1:97 Minus 1:99 Star 1:101 Slash 1:103 Percent 1:105 Less 1:107 Greater 1:109 Assign 1:111 And 1:113 Or 1:115 Xor 1:116 End",
)];

const NAMES: [Row; 5] = [
    (b"", "1:1 End"),
    (b"int a1_;", "1:1 Int 1:5 'a1_' 1:8 Semicolon 1:9 End"),
    (
        b"_ co_awaits If and final wchar_t",
        "1:1 '_' 1:3 'co_awaits' 1:13 'If' 1:16 'and' 1:20 'final' 1:26 'wchar_t' 1:33 End",
    ),
    (
        b">>>=....:::a+++b->*",
        "1:1 Shr 1:3 GreaterEqual 1:5 Ellipsis 1:8 Dot 1:9 Scope 1:11 Colon 1:12 'a' 1:13 Increment 1:15 Plus 1:16 'b' 1:17 Arrow 1:19 Star 1:20 End",
    ),
    (
        b"<<<=&&&..<:%:",
        "1:1 Shl 1:3 LessEqual 1:5 AndAnd 1:7 And 1:8 Dot 1:9 Dot 1:10 Less 1:11 Colon 1:12 Percent 1:13 Colon 1:14 End",
    ),
];

const NUMBERS: [Row; 23] = [
    (
        b"0 7 2147483647 2147483648 5L 5l 5UL 5ul 0L",
        "1:1 0 1:3 7 1:5 2147483647 1:16 2147483648L 1:27 5L 1:30 5L 1:33 5UL 1:37 5UL 1:41 0L 1:43 End",
    ),
    (
        b"9223372036854775807 9223372036854775807UL",
        "1:1 9223372036854775807L 1:21 9223372036854775807UL 1:42 End",
    ),
    (b"1.5", "1:1 1 1:2 Dot 1:3 5 1:4 End"),
    (b"-1", "1:1 Minus 1:2 1 1:3 End"),
    (b"9223372036854775808", "L2 1:1"),
    (b"9223372036854775808UL", "L2 1:1"),
    (b"99999999999999999999999999", "L2 1:1"),
    (b"00", "L2 1:1"),
    (b"01", "L2 1:1"),
    (b"00L", "L2 1:1"),
    (b"0L0", "L2 1:1"),
    (b"5U", "L2 1:1"),
    (b"5Ul", "L2 1:1"),
    (b"5uL", "L2 1:1"),
    (b"5LU", "L2 1:1"),
    (b"5LL", "L2 1:1"),
    (b"5l5", "L2 1:1"),
    (b"1a", "L2 1:1"),
    (b"1_", "L2 1:1"),
    (b"1'0", "L2 1:1"),
    (b"0x1", "L2 1:1"),
    (b"1e5", "L2 1:1"),
    (b"a 08", "L2 1:3"),
];

const BYTES: [Row; 14] = [
    (b"@", "L1 1:1"),
    (b"$", "L1 1:1"),
    (b"`", "L1 1:1"),
    (b"\\", "L1 1:1"),
    (b"'", "L1 1:1"),
    (b"\0", "L1 1:1"),
    (b"\x80", "L1 1:1"),
    (b"\xff", "L1 1:1"),
    (b"[", "L1 1:1"),
    (b"]", "L1 1:1"),
    (b"\\\n", "L1 1:1"),
    (b"@\"", "L1 1:1"),
    (b"a #", "L1 1:3"),
    (b"a /*x*/ #include <atomic>", "L1 1:9"),
];

const LITERALS: [Row; 17] = [
    (b"\"a b\"x", "1:1 \"a b\" 1:6 'x' 1:7 End"),
    (b"\"\\\"\\\\\"", "1:1 \"\"\\\" 1:7 End"),
    (b"\"\"", "1:1 \"\" 1:3 End"),
    (b"\"// /* #\"", "1:1 \"// /* #\" 1:10 End"),
    (b"\"\\n\"", "L1 1:2"),
    (b"\"a\x01\"", "L1 1:3"),
    (b"\"\x7f\"", "L1 1:2"),
    (b"\"ab\xc3\"", "L1 1:4"),
    (b"\"\t\"", "L1 1:2"),
    (b"\"a\r\"", "L1 1:3"),
    (b"\"\\\xff\"", "L1 1:2"),
    (b"a \"abc", "L4 1:3"),
    (b"\"abc\n\"", "L4 1:1"),
    (b"\"abc\\\"", "L4 1:1"),
    (b"\"a\x01", "L4 1:1"),
    (b"\"a\\\n\"", "L4 1:1"),
    (b"\"", "L4 1:1"),
];

const COMMENTS: [Row; 11] = [
    (b"/**/a", "1:5 'a' 1:6 End"),
    (b"/*/", "L4 1:1"),
    (b"/*/ */a", "1:7 'a' 1:8 End"),
    (b"/* /* */a", "1:9 'a' 1:10 End"),
    (b"// x\\\na", "2:1 'a' 2:2 End"),
    (b"/* \n */ a", "2:5 'a' 2:6 End"),
    (b"/* // */a // */", "1:9 'a' 1:16 End"),
    (b"\n a/*", "L4 2:3"),
    (b"/* *", "L4 1:1"),
    (b"//", "1:3 End"),
    (
        b"a/b /= c",
        "1:1 'a' 1:2 Slash 1:3 'b' 1:5 DivAssign 1:8 'c' 1:9 End",
    ),
];

const DIRECTIVES: [Row; 32] = [
    (b"#include <coroutine>\n#include \"coroutine\"\n", "3:1 End"),
    (b"#include <utility>\n#include \"utility\"\n", "3:1 End"),
    (b"#include <atomic>\n#include \"atomic\"\n", "3:1 End"),
    (b"#include <exception>\n#include \"exception\"\n", "3:1 End"),
    (b"#include <cstddef>\n#include \"cstddef\"\n", "3:1 End"),
    (b"#include <corun.h>\n#include \"corun.h\"\n", "3:1 End"),
    (b"#include<atomic>", "1:17 End"),
    (b"  #include  \"corun.h\"\t// x\na", "2:1 'a' 2:2 End"),
    (b"#include/**/<utility>/* \n */\na", "3:1 'a' 3:2 End"),
    (b"/* c */ #include <cstddef>", "1:27 End"),
    (b"int /*\n*/ #include <exception>", "1:1 Int 2:24 End"),
    (b"a\n#include <atomic>\nb", "1:1 'a' 3:1 'b' 3:2 End"),
    (b"# include <atomic>", "L3 1:1"),
    (b"#", "L3 1:1"),
    (b"#define x", "L3 1:1"),
    (b"#include", "L3 1:1"),
    (b"#include <vector>", "L3 1:1"),
    (b"#include < atomic>", "L3 1:1"),
    (b"#include <atomic\"", "L3 1:1"),
    (b"#include \"atomic>", "L3 1:1"),
    (b"#include <atomic> x", "L3 1:1"),
    (b"#include <atomic> #", "L3 1:1"),
    (b"#include <atomic> \"", "L3 1:1"),
    (b"#include <atomic> /**/ 1", "L3 1:1"),
    (b"#include\n<atomic>", "L3 1:1"),
    (b"#includes <atomic>", "L3 1:1"),
    (b"#include // <atomic>", "L3 1:1"),
    (b"#include <atomic>;", "L3 1:1"),
    (b"a\n  #foo", "L3 2:3"),
    (b"#include <atomic> /*", "L4 1:19"),
    (b"#include /*", "L4 1:10"),
    (b"#include <vector> /*", "L3 1:1"),
];

const PLACES: [Row; 6] = [
    (b"\ta", "1:2 'a' 1:3 End"),
    (b"\r\na", "2:1 'a' 2:2 End"),
    (b"a\rb", "1:1 'a' 1:3 'b' 1:4 End"),
    (b"\x0b\x0ca\n", "1:3 'a' 2:1 End"),
    (b"@ \"", "L1 1:1"),
    (b"1a @", "L2 1:1"),
];

fn show_text(line: &mut String, text: &Text, quote: char) -> Result<(), Fail> {
    line.push(quote)?;
    for byte in text.as_slice() {
        line.push(char::from(*byte))?;
    }
    line.push(quote)?;
    Ok(())
}

fn suffix(num: Num) -> &'static str {
    match num {
        Num::Long => "L",
        Num::Size => "UL",
        _ => "",
    }
}

fn show_kind(alloc: Global, line: &mut String, kind: &TokenKind) -> Result<(), Fail> {
    match kind {
        TokenKind::Name(name) => show_text(line, name, '\'')?,
        TokenKind::Lit(text) => show_text(line, text, '"')?,
        TokenKind::Word(word) => line.push_str(&format!(in alloc; "{word:?}")?)?,
        TokenKind::Mark(mark) => line.push_str(&format!(in alloc; "{mark:?}")?)?,
        TokenKind::Int(num, value) => {
            line.push_str(&format!(in alloc; "{value}{}", suffix(*num))?)?;
        }
        TokenKind::End => line.push_str("End")?,
    }
    Ok(())
}

fn show_tokens(alloc: Global, tokens: &[Token]) -> Result<String, Fail> {
    let mut line = String::new(alloc);
    for token in tokens {
        if !line.is_empty() {
            line.push(' ')?;
        }
        line.push_str(&format!(in alloc; "{}:{} ", token.span.line, token.span.col)?)?;
        show_kind(alloc, &mut line, &token.kind)?;
    }
    Ok(line)
}

fn show_fault(alloc: Global, code: &str, at: Span) -> Result<String, Fail> {
    Ok(format!(in alloc; "{code} {}:{}", at.line, at.col)?)
}

fn shown(alloc: Global, text: &[u8]) -> Result<String, Fail> {
    if 1048576 < text.len() {
        return Ok(String::new(alloc));
    }
    match lex(alloc, text) {
        Ok(tokens) => show_tokens(alloc, tokens.as_slice()),
        Err(LexFault::BadByte(at)) => show_fault(alloc, "L1", at),
        Err(LexFault::BadNumber(at)) => show_fault(alloc, "L2", at),
        Err(LexFault::BadDirective(at)) => show_fault(alloc, "L3", at),
        Err(LexFault::Unfinished(at)) => show_fault(alloc, "L4", at),
        Err(LexFault::NoMemory) => Ok(String::new(alloc)),
    }
}

fn check(rt: &impl Abort, alloc: Global, rows: &[Row]) -> Result<(), Fail> {
    for (text, want) in rows {
        let line = shown(alloc, text)?;
        assert!(rt; line.as_str() == *want, "at {text:?}: {line}");
    }
    Ok(())
}

#[test]
fn each_text_has_its_tokens_or_its_fault(rt: HostRuntime) -> Result<(), Fail> {
    check(&rt, rt.alloc(), &WORDS)?;
    check(&rt, rt.alloc(), &MARKS)?;
    check(&rt, rt.alloc(), &NAMES)?;
    check(&rt, rt.alloc(), &NUMBERS)?;
    check(&rt, rt.alloc(), &BYTES)?;
    check(&rt, rt.alloc(), &LITERALS)?;
    check(&rt, rt.alloc(), &COMMENTS)?;
    check(&rt, rt.alloc(), &DIRECTIVES)?;
    check(&rt, rt.alloc(), &PLACES)
}
