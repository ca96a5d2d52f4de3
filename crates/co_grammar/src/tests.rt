use crate::{Fault, scan};
use co_lex::{Token, lex};
use std::alloc::Global;
use std::process::Abort;
use std::test::Fail;

/// A text, and `file` or the fault and its place, written by hand from the grammar.
type Row = (&'static [u8], &'static str);

/// Places, at the end of the list too.
const PLACES: [Row; 7] = [
    (b"struct A { int x;", "S1 1:18"),
    (b"int main() { return 1 +; }", "S1 1:24"),
    (b"int main() {", "S1 1:13"),
    (b"int main() {} ;", "S1 1:15"),
    (b"int f(int a, );", "S1 1:14"),
    (b"int main() { 1.5; }", "S1 1:16"),
    (b"", "file"),
];

/// Which names are of classes [class.name].
const CLASSES: [Row; 17] = [
    (b"Foo f();", "S1 1:1"),
    (b"struct S {}; Foo f();", "S1 1:18"),
    (b"struct T {}; int main() { T + 1; }", "S1 1:29"),
    (b"struct T {}; int main() { (T)(x); }", "S1 1:29"),
    (b"struct T {}; int main() { 1 + T; }", "S1 1:32"),
    (b"struct T {}; int main() { for (T(x); ;) ; }", "S1 1:33"),
    (b"struct T {}; int main() { if (1) T(x); }", "S1 1:35"),
    (
        b"struct T {}; int main() { x = T(1) + T::U::f(T{}); }",
        "file",
    ),
    (
        b"struct T {}; int main() { T * x; T & y = *x; T && z = y; a * b; }",
        "file",
    ),
    (b"struct T {}; int main() { T * (x); }", "S1 1:31"),
    (
        b"int main() { a * b; a & b; int(x); std::size_t(x); std::coroutine_handle<>(h); }",
        "file",
    ),
    (
        b"int main() { T::f(1); } struct T { struct U {}; };",
        "file",
    ),
    (b"std::coroutine_handle<x> h;", "S1 1:23"),
    (
        b"int main() { std::coroutine_handle<T>::from_address(p); }",
        "S1 1:36",
    ),
    (b"struct T {}; std::coroutine_handle<U::T> h;", "file"),
    (b"struct T {}; std::coroutine_handle<U::U> h;", "S1 1:40"),
    (b"using std;", "S1 1:7"),
];

/// Declarations in blocks [stmt.dcl].
const LOCALS: [Row; 12] = [
    (b"struct T {}; int main() { T x(U::f(1)); }", "file"),
    (
        b"struct U {}; struct T {}; int main() { T x(U(1)); }",
        "S1 1:45",
    ),
    (
        b"struct T {}; int main() { T x(std::coroutine_handle<>::from_address(p)); }",
        "S1 1:36",
    ),
    (b"struct T {}; int main() { T x(int(1)); }", "S1 1:31"),
    (
        b"struct T {}; int main() { T x(std::size_t(1)); }",
        "S1 1:36",
    ),
    (
        b"struct T {}; int main() { T x(std::move(y)); T y((T(1))); T z(-T(1), int(2)); }",
        "file",
    ),
    (b"struct T {}; int main() { T x(); }", "S1 1:31"),
    (
        b"int main() { int x = {1}; long y{}; const int z(1, 2); }",
        "file",
    ),
    (b"int main() { int(x) = 1, y; }", "S1 1:24"),
    (b"int main() { int x = 1, y; }", "S1 1:23"),
    (
        b"int main() { const int x; int const y = 1; const int const* p; }",
        "file",
    ),
    (b"int main() { int* const p; }", "S1 1:19"),
];

/// Where `auto` stands [dcl.spec.auto].
const AUTO: [Row; 14] = [
    (b"int main() { auto x = 1; auto& y = x; }", "file"),
    (b"int main() { auto* x = y; }", "S1 1:18"),
    (b"int main() { auto&& x = y; }", "S1 1:18"),
    (b"int main() { auto const x = y; }", "S1 1:19"),
    (b"int main() { const auto x = y; }", "S1 1:20"),
    (b"auto& f();", "S1 1:5"),
    (b"auto x = 5;", "S1 1:8"),
    (b"struct S { auto x; };", "S1 1:18"),
    (b"int f(auto x);", "S1 1:7"),
    (b"using T = auto;", "S1 1:11"),
    (b"int main() { new auto; }", "S1 1:18"),
    (b"int main() { static_cast<auto>(x); }", "S1 1:26"),
    (b"int main() { try {} catch (auto e) {} }", "S1 1:28"),
    (b"auto f(); struct S { static auto g() {} };", "file"),
];

/// Declarations of files and classes [dcl.pre].
const DECLARATIONS: [Row; 26] = [
    (b"struct T {}; T x(1);", "S1 1:18"),
    (b"int x = {5};", "S1 1:9"),
    (b"struct S { int x = {5}; };", "S1 1:20"),
    (b"static int x;", "S1 1:13"),
    (b"struct A { A(); };", "S1 1:15"),
    (b"struct A { int f(); };", "S1 1:19"),
    (b"struct A { ~A(); };", "S1 1:16"),
    (b"struct A { ~A() = delete; };", "S1 1:19"),
    (b"struct A { static A(); };", "S1 1:20"),
    (b"struct A { inline A() {} };", "S1 1:20"),
    (b"virtual int f();", "S1 1:1"),
    (b"enum class X {};", "S1 1:1"),
    (b"template <int> x;", "S1 1:1"),
    (
        b"int x{5}; int y = 1 + 2; struct S { int x = 1; int y{2}; };",
        "file",
    ),
    (b"struct A { A() : {} };", "S1 1:18"),
    (
        b"struct A { int x; explicit A(int y) : x(y), z{1} {} A(const A&) = delete; void* operator new(std::size_t n) { return p; } bool operator co_await() const noexcept {} ~A() noexcept = default; private: using B = A; struct C; };",
        "file",
    ),
    (
        b"struct A {}; A operator co_await(A a); inline static auto f() noexcept { co_return; }",
        "file",
    ),
    (b"std::atomic<void*> a; std::atomic<int> b{1};", "file"),
    (b"std::atomic<void> a;", "S1 1:17"),
    (b"std::atomic<x> a;", "S1 1:13"),
    (b"int std = 1;", "S1 1:5"),
    (b"struct corun {};", "S1 1:8"),
    (b"int f(int, long b); class C {};", "file"),
    (b"int f(int a) const {}", "S1 1:14"),
    (b"int f(...);", "S1 1:7"),
    (b"int x y;", "S1 1:7"),
];

/// Statements [stmt.pre].
const STATEMENTS: [Row; 15] = [
    (b"int main() { if (a) if (b) x; else y; else z; }", "file"),
    (b"int main() { if (a) x; else y; else z; }", "S1 1:32"),
    (b"int main() { try {}  }", "S1 1:22"),
    (
        b"int main() { try {} catch (...) {} catch (int e) {} }",
        "file",
    ),
    (
        b"int main() { for (;;) for (int i = 0; i < 3; ++i) break; }",
        "file",
    ),
    (b"int main() { for () {} }", "S1 1:19"),
    (
        b"int main() { while (1) continue; return {1, 2}; co_return x; return; }",
        "file",
    ),
    (b"int main() { co_return {1}; }", "S1 1:24"),
    (b"int main() { else x; }", "S1 1:14"),
    (b"int main() { if (int x = 1) y; }", "S1 1:22"),
    (b"int main() { for (x; y) z; }", "S1 1:23"),
    (b"int main() { throw; throw x; co_yield y; }", "file"),
    (b"int main() { break x; }", "S1 1:20"),
    (b"int main() { int x; struct S {}; }", "S1 1:21"),
    (b"int main() { x y; }", "S1 1:16"),
];

/// Expressions [expr].
const EXPRESSIONS: [Row; 29] = [
    (b"struct T {}; int main() { new T & x; }", "S1 1:33"),
    (b"struct T {}; int main() { new T * p; }", "S1 1:35"),
    (b"struct T {}; int main() { new T(1).x; }", "S1 1:35"),
    (b"struct T {}; int main() { new T * & x; }", "S1 1:35"),
    (
        b"struct T {}; int main() { new T(1) * x; new T * (1); ::new T{1}; ::delete p; new T + 1; new T * * {}; }",
        "file",
    ),
    (
        b"int main() { static_cast<std::coroutine_handle<>>(x); }",
        "S1 1:48",
    ),
    (
        b"int main() { static_cast<std::coroutine_handle<> >(x); }",
        "file",
    ),
    (b"int main() { 1 + co_yield 3; }", "S1 1:18"),
    (
        b"int main() { c ? a : b = d; a + b = 3; co_await a.b + c; x = y = -z++; }",
        "file",
    ),
    (
        b"int main() { int move = 1; int text = 2; int print = move + text; int size_t = 1; }",
        "file",
    ),
    (b"int main() { corun; }", "S1 1:19"),
    (b"int main() { std::foo; }", "S1 1:19"),
    (b"int main() { corun::foo(1); }", "S1 1:21"),
    (
        b"int main() { corun::print(corun::text(\"a\"), corun::input(0)); corun::post(h); corun::inputs(); }",
        "file",
    ),
    (b"int main() { corun::text(1); }", "S1 1:26"),
    (
        b"int main() { ::operator new(1); ::operator delete(p, 2); }",
        "file",
    ),
    (b"int main() { ::operator new(); }", "S1 1:29"),
    (b"int main() { ::x; }", "S1 1:16"),
    (b"int main() { \"a\"; }", "S1 1:14"),
    (b"int main() { f(a)(b).c->; }", "S1 1:25"),
    (b"int main() { f(1, ); }", "S1 1:19"),
    (b"int main() { int{} + long(2) + bool(); }", "file"),
    (b"int main() { x = {1}; }", "S1 1:18"),
    (b"int main() { a ? b ; }", "S1 1:20"),
    (
        b"int main() { a < b > c; a << b >> c; a <= b; !a && ~b || c; }",
        "file",
    ),
    (b"int main() { this->x = nullptr; true, 1; }", "S1 1:37"),
    (b"int main() { x.std; }", "S1 1:16"),
    (
        b"int main() { std::coroutine_handle<>::from_address(p).resume(); std::suspend_always{}; std::atomic<int>(1); }",
        "file",
    ),
    (b"int main() { co_await; }", "S1 1:22"),
];

/// Whole programs.
const PROGRAMS: [Row; 7] = [
    (
        b"#include <coroutine>\n#include <atomic>\n#include \"corun.h\"\nstruct Job {\n  struct promise_type {\n    Job get_return_object() { return Job{std::coroutine_handle<promise_type>::from_promise(*this)}; }\n    std::suspend_never initial_suspend() noexcept { return {}; }\n    std::suspend_never final_suspend() noexcept { return {}; }\n    void return_void() {}\n    void unhandled_exception() { throw; }\n  };\n  std::coroutine_handle<promise_type> h;\n};\n",
        "file",
    ),
    (
        b"#include <coroutine>\nstruct Gen {\n  struct promise_type {\n    long v = 0;\n    Gen get_return_object() { return Gen{std::coroutine_handle<promise_type>::from_promise(*this)}; }\n    std::suspend_always initial_suspend() noexcept { return {}; }\n    std::suspend_always final_suspend() noexcept { return {}; }\n    std::suspend_always yield_value(long x) { v = x; return {}; }\n    void return_void() {}\n    void unhandled_exception() { throw; }\n  };\n  std::coroutine_handle<promise_type> h;\n};\nGen count() { co_yield 1; co_yield 2; co_yield 3; }\nint main() {\n  Gen g = count();\n  for (int i = 0; i < 4; ++i) {\n    g.h.resume();\n    if (!g.h.done()) corun::print(g.h.promise().v);\n  }\n  corun::print(g.h.done());\n  g.h.destroy();\n}\n",
        "file",
    ),
    (
        b"#include <coroutine>\n#include <atomic>\n#include \"corun.h\"\nstruct Job {\n  struct promise_type {\n    Job get_return_object() { return Job{std::coroutine_handle<promise_type>::from_promise(*this)}; }\n    std::suspend_never initial_suspend() noexcept { return {}; }\n    std::suspend_always final_suspend() noexcept { return {}; }\n    void return_void() {}\n    void unhandled_exception() { throw; }\n  };\n  std::coroutine_handle<promise_type> h;\n};\n",
        "file",
    ),
    (
        b"#include <coroutine>\n#include <atomic>\n#include \"corun.h\"\nstruct Job {\n  struct promise_type {\n    Job get_return_object() { return Job{std::coroutine_handle<promise_type>::from_promise(*this)}; }\n    std::suspend_always initial_suspend() noexcept { return {}; }\n    std::suspend_always final_suspend() noexcept { return {}; }\n    void return_void() {}\n    void unhandled_exception() { throw; }\n  };\n  std::coroutine_handle<promise_type> h;\n};\n",
        "file",
    ),
    (
        b"#include <coroutine>\n#include <atomic>\n#include \"corun.h\"\nstruct Job {\n  struct promise_type {\n    Job get_return_object() { return Job{std::coroutine_handle<promise_type>::from_promise(*this)}; }\n    std::suspend_never initial_suspend() noexcept { return {}; }\n    std::suspend_always final_suspend() noexcept { return {}; }\n    void return_void() {}\n    ~promise_type() { corun::print(50); }\n    void unhandled_exception() { throw; }\n  };\n  std::coroutine_handle<promise_type> h;\n};\nstruct T {\n  long id;\n  T(long i) : id(i) {}\n  T(T&& o) : id(o.id + 100) {}\n  ~T() { corun::print(id); }\n};\nstruct Aw {\n  T t;\n  bool await_ready() { return false; }\n  void await_suspend(std::coroutine_handle<> h) {}\n  void await_resume() {}\n};\nJob f(T p, T q) {\n  T a{1};\n  co_await std::suspend_always{};\n  T b{2};\n  T c{3};\n  co_await Aw{T{4}};\n}\nint main() { Job j = f(T{10}, T{20}); corun::print(0); j.h.resume(); corun::print(5); j.h.destroy(); }\n",
        "file",
    ),
    (
        b"#include <coroutine>\n#include <atomic>\n#include \"corun.h\"\nstruct Job {\n  struct promise_type {\n    Job get_return_object() { return Job{std::coroutine_handle<promise_type>::from_promise(*this)}; }\n    std::suspend_never initial_suspend() noexcept { return {}; }\n    std::suspend_never final_suspend() noexcept { return {}; }\n    void return_void() {}\n    void unhandled_exception() { throw; }\n  };\n  std::coroutine_handle<promise_type> h;\n};\n#include <utility>\n#include <exception>\nstd::atomic<long> total{0};\nstd::atomic<long> left{50};\nstd::atomic<int> fin{0};\nstruct Event {\n  std::atomic<void*> state{nullptr};\n  struct Awaiter {\n    Event& e;\n    bool await_ready() { return e.state.load() == &e; }\n    bool await_suspend(std::coroutine_handle<> h) { void* was = nullptr; return e.state.compare_exchange_strong(was, h.address()); }\n    void await_resume() {}\n  };\n  Awaiter operator co_await() { return Awaiter{*this}; }\n  void set() {\n    void* was = state.exchange(this);\n    if (was != nullptr) std::coroutine_handle<>::from_address(was).resume();\n  }\n};\nstruct Task {\n  struct promise_type {\n    long value = 0;\n    std::coroutine_handle<> next;\n    struct Final {\n      bool await_ready() noexcept { return false; }\n      std::coroutine_handle<> await_suspend(std::coroutine_handle<promise_type> h) noexcept { return h.promise().next; }\n      void await_resume() noexcept {}\n    };\n    Task get_return_object() { return Task{std::coroutine_handle<promise_type>::from_promise(*this)}; }\n    std::suspend_always initial_suspend() noexcept { return {}; }\n    Final final_suspend() noexcept { return {}; }\n    void return_value(long v) { value = v; }\n    void unhandled_exception() { std::terminate(); }\n  };\n  std::coroutine_handle<promise_type> h;\n  Task(std::coroutine_handle<promise_type> x) : h(x) {}\n  Task(Task&& o) noexcept : h(std::exchange(o.h, nullptr)) {}\n  ~Task() { if (h) h.destroy(); }\n  bool await_ready() { return false; }\n  std::coroutine_handle<> await_suspend(std::coroutine_handle<> c) { h.promise().next = c; return h; }\n  long await_resume() { return h.promise().value; }\n};\nTask same(long k) { co_return k; }\nJob waiter(Event& e) { co_await e; corun::print(total.load()); fin.store(1); }\nJob add(Event& e, long k) {\n  co_await std::suspend_always{};\n  long v = co_await same(k);\n  total.fetch_add(v);\n  if (left.fetch_sub(1) == 1) e.set();\n}\nint main() {\n  Event e;\n  waiter(e);\n  for (long i = 1; i <= 50; ++i) { Job j = add(e, i); corun::post(j.h); }\n  while (fin.load() == 0) {}\n  return 0;\n}\n",
        "file",
    ),
    (
        b"#include <coroutine>\n#include <atomic>\n#include \"corun.h\"\nstruct Job {\n  struct promise_type {\n    Job get_return_object() { return Job{std::coroutine_handle<promise_type>::from_promise(*this)}; }\n    std::suspend_never initial_suspend() noexcept { return {}; }\n    std::suspend_never final_suspend() noexcept { return {}; }\n    void return_void() {}\n    void unhandled_exception() { throw; }\n  };\n  std::coroutine_handle<promise_type> h;\n};\nstd::atomic<int> go{0};\nstruct Last {\n  std::coroutine_handle<> o;\n  Last(std::coroutine_handle<> x) : o(x) {}\n  Last(Last&& l) : o(l.o) { l.o = nullptr; }\n  ~Last() { if (o) corun::post(o); }\n};\nstruct Pub {\n  bool await_ready() { return false; }\n  void await_suspend(std::coroutine_handle<> h) { corun::post(h); while (go.load() == 0) {} corun::print(3); }\n  void await_resume() { corun::print(1); }\n};\nJob a(Last l, bool first) { if (first) co_await Pub{}; else co_await std::suspend_always{}; }\nJob b() { co_await std::suspend_always{}; Job z = a(Last{nullptr}, false); corun::print(2); go.store(1); }\nint main() { Job y = b(); Job x = a(Last{y.h}, true); }\n",
        "file",
    ),
];

/// What is said once before, so many times, once between, so many times and once after; how many times 200 levels are not passed,
/// and where the fault stands in the first of those that are too many.
struct Nest {
    before: &'static [u8],
    opening: &'static [u8],
    between: &'static [u8],
    closing: &'static [u8],
    after: &'static [u8],
    most: usize,
    offset: usize,
}

const NESTS: [Nest; 22] = [
    Nest {
        before: b"int main() {",
        opening: b"{",
        between: b"",
        closing: b"}",
        after: b"}",
        most: 199,
        offset: 0,
    },
    Nest {
        before: b"int main() {",
        opening: b"(",
        between: b"x",
        closing: b")",
        after: b";}",
        most: 199,
        offset: 0,
    },
    Nest {
        before: b"int main() {",
        opening: b"!",
        between: b"x",
        closing: b"",
        after: b";}",
        most: 199,
        offset: 0,
    },
    Nest {
        before: b"int main() {",
        opening: b"co_await ",
        between: b"x",
        closing: b"",
        after: b";}",
        most: 199,
        offset: 0,
    },
    Nest {
        before: b"int main() {x",
        opening: b"+x",
        between: b"",
        closing: b"",
        after: b";}",
        most: 199,
        offset: 0,
    },
    Nest {
        before: b"int main() {x",
        opening: b"=x",
        between: b"",
        closing: b"",
        after: b";}",
        most: 199,
        offset: 0,
    },
    Nest {
        before: b"int main() {x",
        opening: b"?x:x",
        between: b"",
        closing: b"",
        after: b";}",
        most: 199,
        offset: 0,
    },
    Nest {
        before: b"int main() {f",
        opening: b"()",
        between: b"",
        closing: b"",
        after: b";}",
        most: 199,
        offset: 0,
    },
    Nest {
        before: b"int main() {x",
        opening: b".x",
        between: b"",
        closing: b"",
        after: b";}",
        most: 199,
        offset: 0,
    },
    Nest {
        before: b"int main() {x",
        opening: b"++",
        between: b"",
        closing: b"",
        after: b";}",
        most: 199,
        offset: 0,
    },
    Nest {
        before: b"int main() {",
        opening: b"delete ",
        between: b"x",
        closing: b"",
        after: b";}",
        most: 199,
        offset: 0,
    },
    Nest {
        before: b"int main() {",
        opening: b"throw ",
        between: b"x",
        closing: b"",
        after: b";}",
        most: 199,
        offset: 0,
    },
    Nest {
        before: b"int main() {",
        opening: b"co_yield ",
        between: b"x",
        closing: b"",
        after: b";}",
        most: 199,
        offset: 0,
    },
    Nest {
        before: b"int main() {int",
        opening: b"*",
        between: b" x",
        closing: b"",
        after: b";}",
        most: 199,
        offset: 0,
    },
    Nest {
        before: b"int main() {new int",
        opening: b"*",
        between: b"",
        closing: b"",
        after: b";}",
        most: 198,
        offset: 0,
    },
    Nest {
        before: b"int main() {",
        opening: b"if(x)",
        between: b";",
        closing: b"",
        after: b"}",
        most: 198,
        offset: 2,
    },
    Nest {
        before: b"int main() {",
        opening: b"while(x)",
        between: b";",
        closing: b"",
        after: b"}",
        most: 198,
        offset: 5,
    },
    Nest {
        before: b"int main() {",
        opening: b"for(;;)",
        between: b";",
        closing: b"",
        after: b"}",
        most: 198,
        offset: 3,
    },
    Nest {
        before: b"int main() {",
        opening: b"if(x);else ",
        between: b";",
        closing: b"",
        after: b"}",
        most: 198,
        offset: 2,
    },
    Nest {
        before: b"",
        opening: b"struct A{",
        between: b"",
        closing: b"};",
        after: b"",
        most: 200,
        offset: 8,
    },
    Nest {
        before: b"int x = ",
        opening: b"int{",
        between: b"1",
        closing: b"}",
        after: b";",
        most: 200,
        offset: 3,
    },
    Nest {
        before: b"int main() {",
        opening: b"f(x) + ",
        between: b"x",
        closing: b"",
        after: b";}",
        most: 199,
        offset: 1,
    },
];

fn place(alloc: Global, code: &str, tokens: &[Token], at: usize) -> Result<String, Fail> {
    match tokens.get(at) {
        Some(token) => Ok(format!(in alloc; "{code} {}:{}", token.span.line, token.span.col)?),
        None => Ok(format!(in alloc; "{code} at no token")?),
    }
}

fn told(alloc: Global, text: &[u8]) -> Result<String, Fail> {
    if 1048576 < text.len() {
        return Ok(format!(in alloc; "too long")?);
    }
    let Ok(tokens) = lex(alloc, text) else {
        return Ok(format!(in alloc; "no tokens")?);
    };
    match scan(alloc, tokens.as_slice()) {
        Ok(_classes) => Ok(format!(in alloc; "file")?),
        Err(Fault::Syntax(at)) => place(alloc, "S1", tokens.as_slice(), at),
        Err(Fault::TooDeep(at)) => place(alloc, "Q1", tokens.as_slice(), at),
        Err(Fault::NoMemory) => Ok(format!(in alloc; "no memory")?),
    }
}

fn check(rt: &impl Abort, alloc: Global, rows: &[Row]) -> Result<(), Fail> {
    for (text, want) in rows {
        let line = told(alloc, text)?;
        assert!(rt; line.as_str() == *want, "at {text:?}: {line}");
    }
    Ok(())
}

#[test]
fn each_text_is_a_file_or_has_its_fault(rt: HostRuntime) -> Result<(), Fail> {
    check(&rt, rt.alloc(), &PLACES)?;
    check(&rt, rt.alloc(), &CLASSES)?;
    check(&rt, rt.alloc(), &LOCALS)?;
    check(&rt, rt.alloc(), &AUTO)?;
    check(&rt, rt.alloc(), &DECLARATIONS)?;
    check(&rt, rt.alloc(), &STATEMENTS)?;
    check(&rt, rt.alloc(), &EXPRESSIONS)?;
    check(&rt, rt.alloc(), &PROGRAMS)
}

fn append(text: &mut Vec<u8>, piece: &[u8], count: usize) -> Result<(), Fail> {
    for _ in 0..count {
        text.extend_from_slice(piece)?;
    }
    Ok(())
}

fn nested(alloc: Global, nest: &Nest, count: usize) -> Result<Vec<u8>, Fail> {
    let mut text = Vec::new(alloc);
    append(&mut text, nest.before, 1)?;
    append(&mut text, nest.opening, count)?;
    append(&mut text, nest.between, 1)?;
    append(&mut text, nest.closing, count)?;
    append(&mut text, nest.after, 1)?;
    Ok(text)
}

#[test]
fn two_hundred_levels_are_the_most(rt: HostRuntime) -> Result<(), Fail> {
    let alloc = rt.alloc();
    for nest in &NESTS {
        let line = told(alloc, &nested(alloc, nest, nest.most)?)?;
        assert!(&rt; line.as_str() == "file", "at {:?}: {line}", nest.opening);
        let column = nest
            .before
            .len()
            .wrapping_add(nest.opening.len().wrapping_mul(nest.most))
            .wrapping_add(nest.offset)
            .wrapping_add(1);
        let want = format!(in alloc; "Q1 1:{column}")?;
        let line = told(alloc, &nested(alloc, nest, nest.most.wrapping_add(1))?)?;
        assert!(&rt; line == want, "at {:?}: {line}", nest.opening);
    }
    Ok(())
}

fn repeated(
    alloc: Global,
    before: &[u8],
    piece: &[u8],
    count: usize,
    after: &[u8],
) -> Result<Vec<u8>, Fail> {
    let mut text = Vec::new(alloc);
    append(&mut text, before, 1)?;
    append(&mut text, piece, count)?;
    append(&mut text, after, 1)?;
    Ok(text)
}

#[test]
fn long_texts_end(rt: HostRuntime) -> Result<(), Fail> {
    let alloc = rt.alloc();
    let open = told(alloc, &repeated(alloc, b"int main(){", b"(", 1048565, b"")?)?;
    assert!(&rt; open.as_str() == "Q1 1:211", "parentheses: {open}");
    let classes = told(alloc, &repeated(alloc, b"", b"struct A;", 8000, b"")?)?;
    assert!(&rt; classes.as_str() == "file", "classes: {classes}");
    let statements = told(
        alloc,
        &repeated(alloc, b"int main(){", b"{}x;", 8000, b"}")?,
    )?;
    assert!(&rt; statements.as_str() == "file", "statements: {statements}");
    Ok(())
}

#[test]
fn a_list_that_stops_has_a_fault_at_its_end(rt: HostRuntime) -> Result<(), Fail> {
    let alloc = rt.alloc();
    let Ok(tokens) = lex(alloc, b"int x;") else {
        return Ok(());
    };
    for count in 0..4 {
        let Some(part) = tokens.as_slice().get(..count) else {
            return Ok(());
        };
        let is_there = matches!(scan(alloc, part), Err(Fault::Syntax(at)) if at == count);
        assert!(&rt; is_there, "at {count}");
    }
    Ok(())
}
