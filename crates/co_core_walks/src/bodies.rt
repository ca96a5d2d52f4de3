ghost use Rattle.std.specs.Prelude.{◌≡◌, flat_map, fold};
ghost use Rattle.co_core.specs.Bodies.{Placed, body_of, placed};
ghost use Rattle.co_core_walks.specs.Seen.{stands_of};
ghost use Rattle.co_core.specs.Bodies as body;

use co_core_tree::{CoreFunc, CoreStmt, Handler};

/// Where a statement stands: in the body of a loop, directly in the list of a `Scope`, in a handler.
#[derive(Clone, Copy)]
pub struct Standing {
    pub in_loop: bool,
    pub in_scope: bool,
    pub in_handler: bool,
}

impl Standing {
    /// Where the body of a function stands.
    pub fn in_body() -> Standing
        ensures { stands_of result ≡ body.in_body }
    {
        Standing {
            in_loop: false,
            in_scope: false,
            in_handler: false,
        }
    }

    fn in_loop_body(self) -> Standing
        ensures { stands_of result ≡ body.in_loop_body (stands_of self) }
    {
        Standing {
            in_loop: true,
            in_scope: false,
            in_handler: self.in_handler,
        }
    }

    fn in_scope_list(self) -> Standing
        ensures { stands_of result ≡ body.in_scope_list (stands_of self) }
    {
        Standing {
            in_loop: self.in_loop,
            in_scope: true,
            in_handler: self.in_handler,
        }
    }

    fn in_branch(self) -> Standing
        ensures { stands_of result ≡ body.in_branch (stands_of self) }
    {
        Standing {
            in_loop: self.in_loop,
            in_scope: false,
            in_handler: self.in_handler,
        }
    }

    fn in_handler_body(self) -> Standing
        ensures { stands_of result ≡ body.in_handler_body (stands_of self) }
    {
        Standing {
            in_loop: self.in_loop,
            in_scope: false,
            in_handler: true,
        }
    }
}

/// What a walk does at each statement: `after_stmt` is the visitor after it.
pub trait StmtVisitor {
    ghost after_stmt: { Self → Placed → Self };

    /// Visits a statement before those in it.
    fn visit_stmt(&mut self, stands: Standing, s: &CoreStmt)
        ensures { self.new ≡ after_stmt self.old (record { stands = stands_of stands; stmt = s.now }) };
}

/// Visits a statement and those in it, in the order of the text.
#[cycle(stmts)]
pub fn walk_stmt<V: StmtVisitor>(v: &mut V, stands: Standing, s: &CoreStmt)
    ensures { v.new ≡ fold V.after_stmt v.old (placed (stands_of stands) s.now) }
{
    v.visit_stmt(stands, s);
    match s {
        CoreStmt::Scope(stmts, _) => walk_list(v, stands.in_scope_list(), stmts.as_slice()),
        CoreStmt::If(_, x, y, _) => {
            walk_stmt(v, stands.in_branch(), x.get());
            walk_stmt(v, stands.in_branch(), y.get());
        }
        CoreStmt::Loop(_, _, body, _) => walk_stmt(v, stands.in_loop_body(), body.get()),
        CoreStmt::Try(body, handlers, _) => {
            walk_stmt(v, stands.in_branch(), body.get());
            walk_handlers(v, stands.in_handler_body(), handlers.as_slice());
        }
        CoreStmt::Full(_, _)
        | CoreStmt::Local(_, _, _)
        | CoreStmt::Break(_)
        | CoreStmt::Continue(_)
        | CoreStmt::Return(_, _)
        | CoreStmt::Leave(_)
        | CoreStmt::OffEnd(_) => {}
    }
}

/// Visits the statements of the body of a function.
pub fn walk_body<V: StmtVisitor>(v: &mut V, func: &CoreFunc)
    ensures { v.new ≡ fold V.after_stmt v.old (body_of func.now) }
{
    walk_stmt(v, Standing::in_body(), &func.body);
}

#[cycle(stmts)]
fn walk_list<V: StmtVisitor>(v: &mut V, stands: Standing, stmts: &[CoreStmt])
    ensures { v.new ≡ fold V.after_stmt v.old (flat_map (placed (stands_of stands)) stmts.now) }
{
    for s in stmts {
        walk_stmt(v, stands, s);
    }
}

#[cycle(stmts)]
fn walk_handlers<V: StmtVisitor>(v: &mut V, stands: Standing, handlers: &[Handler])
    ensures { v.new ≡ fold V.after_stmt v.old (flat_map (λ handler. placed (stands_of stands) handler.body) handlers.now) }
{
    for handler in handlers {
        walk_stmt(v, stands, &handler.body);
    }
}
