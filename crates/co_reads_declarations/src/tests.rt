use co_lex::{Token, lex};
use co_parse::parse;
use co_print::print_tree;
use std::alloc::Global;
use std::process::Abort;
use std::test::Fail;

/// Files of each rule.
const FILES: [&[u8]; 38] = [
    b"",
    b"struct T {}; int main() { x = T(1) + T::U::f(T{}); }",
    b"struct T {}; int main() { T * x; T & y = *x; T && z = y; a * b; }",
    b"int main() { a * b; a & b; int(x); std::size_t(x); std::coroutine_handle<>(h); }",
    b"int main() { T::f(1); } struct T { struct U {}; };",
    b"struct T {}; std::coroutine_handle<U::T> h;",
    b"struct T {}; int main() { T x(U::f(1)); }",
    b"struct T {}; int main() { T x(std::move(y)); T y((T(1))); T z(-T(1), int(2)); }",
    b"int main() { int x = {1}; long y{}; const int z(1, 2); }",
    b"int main() { const int x; int const y = 1; const int const* p; }",
    b"int main() { auto x = 1; auto& y = x; }",
    b"auto f(); struct S { static auto g() {} };",
    b"int x{5}; int y = 1 + 2; struct S { int x = 1; int y{2}; };",
    b"struct A { int x; explicit A(int y) : x(y), z{1} {} A(const A&) = delete; void* operator new(std::size_t n) { return p; } bool operator co_await() const noexcept {} ~A() noexcept = default; private: using B = A; struct C; };",
    b"struct A {}; A operator co_await(A a); inline static auto f() noexcept { co_return; }",
    b"std::atomic<void*> a; std::atomic<int> b{1};",
    b"int f(int, long b); class C {};",
    b"int main() { if (a) if (b) x; else y; else z; }",
    b"int main() { try {} catch (...) {} catch (int e) {} }",
    b"int main() { for (;;) for (int i = 0; i < 3; ++i) break; }",
    b"int main() { while (1) continue; return {1, 2}; co_return x; return; }",
    b"int main() { throw; throw x; co_yield y; }",
    b"struct T {}; int main() { new T(1) * x; new T * (1); ::new T{1}; ::delete p; new T + 1; new T * * {}; }",
    b"int main() { static_cast<std::coroutine_handle<> >(x); }",
    b"int main() { c ? a : b = d; a + b = 3; co_await a.b + c; x = y = -z++; }",
    b"int main() { int move = 1; int text = 2; int print = move + text; int size_t = 1; }",
    b"int main() { corun::print(corun::text(\"a\"), corun::input(0)); corun::post(h); corun::inputs(); }",
    b"int main() { ::operator new(1); ::operator delete(p, 2); }",
    b"int main() { int{} + long(2) + bool(); }",
    b"int main() { a < b > c; a << b >> c; a <= b; !a && ~b || c; }",
    b"int main() { std::coroutine_handle<>::from_address(p).resume(); std::suspend_always{}; std::atomic<int>(1); }",
    b"#include <coroutine>\n#include <atomic>\n#include \"corun.h\"\nstruct Job {\n  struct promise_type {\n    Job get_return_object() { return Job{std::coroutine_handle<promise_type>::from_promise(*this)}; }\n    std::suspend_never initial_suspend() noexcept { return {}; }\n    std::suspend_never final_suspend() noexcept { return {}; }\n    void return_void() {}\n    void unhandled_exception() { throw; }\n  };\n  std::coroutine_handle<promise_type> h;\n};\n",
    b"#include <coroutine>\nstruct Gen {\n  struct promise_type {\n    long v = 0;\n    Gen get_return_object() { return Gen{std::coroutine_handle<promise_type>::from_promise(*this)}; }\n    std::suspend_always initial_suspend() noexcept { return {}; }\n    std::suspend_always final_suspend() noexcept { return {}; }\n    std::suspend_always yield_value(long x) { v = x; return {}; }\n    void return_void() {}\n    void unhandled_exception() { throw; }\n  };\n  std::coroutine_handle<promise_type> h;\n};\nGen count() { co_yield 1; co_yield 2; co_yield 3; }\nint main() {\n  Gen g = count();\n  for (int i = 0; i < 4; ++i) {\n    g.h.resume();\n    if (!g.h.done()) corun::print(g.h.promise().v);\n  }\n  corun::print(g.h.done());\n  g.h.destroy();\n}\n",
    b"#include <coroutine>\n#include <atomic>\n#include \"corun.h\"\nstruct Job {\n  struct promise_type {\n    Job get_return_object() { return Job{std::coroutine_handle<promise_type>::from_promise(*this)}; }\n    std::suspend_never initial_suspend() noexcept { return {}; }\n    std::suspend_always final_suspend() noexcept { return {}; }\n    void return_void() {}\n    void unhandled_exception() { throw; }\n  };\n  std::coroutine_handle<promise_type> h;\n};\n",
    b"#include <coroutine>\n#include <atomic>\n#include \"corun.h\"\nstruct Job {\n  struct promise_type {\n    Job get_return_object() { return Job{std::coroutine_handle<promise_type>::from_promise(*this)}; }\n    std::suspend_always initial_suspend() noexcept { return {}; }\n    std::suspend_always final_suspend() noexcept { return {}; }\n    void return_void() {}\n    void unhandled_exception() { throw; }\n  };\n  std::coroutine_handle<promise_type> h;\n};\n",
    b"#include <coroutine>\n#include <atomic>\n#include \"corun.h\"\nstruct Job {\n  struct promise_type {\n    Job get_return_object() { return Job{std::coroutine_handle<promise_type>::from_promise(*this)}; }\n    std::suspend_never initial_suspend() noexcept { return {}; }\n    std::suspend_always final_suspend() noexcept { return {}; }\n    void return_void() {}\n    ~promise_type() { corun::print(50); }\n    void unhandled_exception() { throw; }\n  };\n  std::coroutine_handle<promise_type> h;\n};\nstruct T {\n  long id;\n  T(long i) : id(i) {}\n  T(T&& o) : id(o.id + 100) {}\n  ~T() { corun::print(id); }\n};\nstruct Aw {\n  T t;\n  bool await_ready() { return false; }\n  void await_suspend(std::coroutine_handle<> h) {}\n  void await_resume() {}\n};\nJob f(T p, T q) {\n  T a{1};\n  co_await std::suspend_always{};\n  T b{2};\n  T c{3};\n  co_await Aw{T{4}};\n}\nint main() { Job j = f(T{10}, T{20}); corun::print(0); j.h.resume(); corun::print(5); j.h.destroy(); }\n",
    b"#include <coroutine>\n#include <atomic>\n#include \"corun.h\"\nstruct Job {\n  struct promise_type {\n    Job get_return_object() { return Job{std::coroutine_handle<promise_type>::from_promise(*this)}; }\n    std::suspend_never initial_suspend() noexcept { return {}; }\n    std::suspend_never final_suspend() noexcept { return {}; }\n    void return_void() {}\n    void unhandled_exception() { throw; }\n  };\n  std::coroutine_handle<promise_type> h;\n};\n#include <utility>\n#include <exception>\nstd::atomic<long> total{0};\nstd::atomic<long> left{50};\nstd::atomic<int> fin{0};\nstruct Event {\n  std::atomic<void*> state{nullptr};\n  struct Awaiter {\n    Event& e;\n    bool await_ready() { return e.state.load() == &e; }\n    bool await_suspend(std::coroutine_handle<> h) { void* was = nullptr; return e.state.compare_exchange_strong(was, h.address()); }\n    void await_resume() {}\n  };\n  Awaiter operator co_await() { return Awaiter{*this}; }\n  void set() {\n    void* was = state.exchange(this);\n    if (was != nullptr) std::coroutine_handle<>::from_address(was).resume();\n  }\n};\nstruct Task {\n  struct promise_type {\n    long value = 0;\n    std::coroutine_handle<> next;\n    struct Final {\n      bool await_ready() noexcept { return false; }\n      std::coroutine_handle<> await_suspend(std::coroutine_handle<promise_type> h) noexcept { return h.promise().next; }\n      void await_resume() noexcept {}\n    };\n    Task get_return_object() { return Task{std::coroutine_handle<promise_type>::from_promise(*this)}; }\n    std::suspend_always initial_suspend() noexcept { return {}; }\n    Final final_suspend() noexcept { return {}; }\n    void return_value(long v) { value = v; }\n    void unhandled_exception() { std::terminate(); }\n  };\n  std::coroutine_handle<promise_type> h;\n  Task(std::coroutine_handle<promise_type> x) : h(x) {}\n  Task(Task&& o) noexcept : h(std::exchange(o.h, nullptr)) {}\n  ~Task() { if (h) h.destroy(); }\n  bool await_ready() { return false; }\n  std::coroutine_handle<> await_suspend(std::coroutine_handle<> c) { h.promise().next = c; return h; }\n  long await_resume() { return h.promise().value; }\n};\nTask same(long k) { co_return k; }\nJob waiter(Event& e) { co_await e; corun::print(total.load()); fin.store(1); }\nJob add(Event& e, long k) {\n  co_await std::suspend_always{};\n  long v = co_await same(k);\n  total.fetch_add(v);\n  if (left.fetch_sub(1) == 1) e.set();\n}\nint main() {\n  Event e;\n  waiter(e);\n  for (long i = 1; i <= 50; ++i) { Job j = add(e, i); corun::post(j.h); }\n  while (fin.load() == 0) {}\n  return 0;\n}\n",
    b"#include <coroutine>\n#include <atomic>\n#include \"corun.h\"\nstruct Job {\n  struct promise_type {\n    Job get_return_object() { return Job{std::coroutine_handle<promise_type>::from_promise(*this)}; }\n    std::suspend_never initial_suspend() noexcept { return {}; }\n    std::suspend_never final_suspend() noexcept { return {}; }\n    void return_void() {}\n    void unhandled_exception() { throw; }\n  };\n  std::coroutine_handle<promise_type> h;\n};\nstd::atomic<int> go{0};\nstruct Last {\n  std::coroutine_handle<> o;\n  Last(std::coroutine_handle<> x) : o(x) {}\n  Last(Last&& l) : o(l.o) { l.o = nullptr; }\n  ~Last() { if (o) corun::post(o); }\n};\nstruct Pub {\n  bool await_ready() { return false; }\n  void await_suspend(std::coroutine_handle<> h) { corun::post(h); while (go.load() == 0) {} corun::print(3); }\n  void await_resume() { corun::print(1); }\n};\nJob a(Last l, bool first) { if (first) co_await Pub{}; else co_await std::suspend_always{}; }\nJob b() { co_await std::suspend_always{}; Job z = a(Last{nullptr}, false); corun::print(2); go.store(1); }\nint main() { Job y = b(); Job x = a(Last{y.h}, true); }\n",
];

/// The kinds of the tokens, one after the other.
fn kinds(alloc: Global, tokens: &[Token]) -> Result<String, Fail> {
    let mut line = String::new(alloc);
    for token in tokens {
        line.push_str(format!(in alloc; "{:?} ", token.kind)?.as_str())?;
    }
    Ok(line)
}

/// The kinds of the tokens of a text.
fn told(alloc: Global, text: &[u8]) -> Result<String, Fail> {
    if 1048576 < text.len() {
        return Ok(format!(in alloc; "too long")?);
    }
    let Ok(tokens) = lex(alloc, text) else {
        return Ok(format!(in alloc; "no tokens")?);
    };
    kinds(alloc, tokens.as_slice())
}

/// The canonical text of a text's tree; nothing where it has none.
fn printed(alloc: Global, text: &[u8]) -> Result<Vec<u8>, Fail> {
    if 1048576 < text.len() {
        return Ok(Vec::new(alloc));
    }
    let Ok(tokens) = lex(alloc, text) else {
        return Ok(Vec::new(alloc));
    };
    match parse(alloc, tokens.as_slice()) {
        Ok(tree) => match print_tree(alloc, &tree) {
            Ok(text) => Ok(text),
            Err(_) => Ok(Vec::new(alloc)),
        },
        Err(_) => Ok(Vec::new(alloc)),
    }
}

/// Whether the tree has the tokens that it was read from.
fn is_read(rt: &impl Abort, alloc: Global, text: &[u8]) -> Result<(), Fail> {
    let canonical = printed(alloc, text)?;
    let first = told(alloc, text)?;
    let second = told(alloc, canonical.as_slice())?;
    assert!(rt; first == second, "{first} and {second}");
    let twice = printed(alloc, canonical.as_slice())?;
    assert!(rt; canonical == twice, "at {text:?}");
    Ok(())
}

#[test]
fn each_file_has_its_tree(rt: HostRuntime) -> Result<(), Fail> {
    for text in &FILES {
        is_read(&rt, rt.alloc(), text)?;
    }
    Ok(())
}
