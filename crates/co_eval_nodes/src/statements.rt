ghost use Rattle.std.specs.Prelude.{◌≡◌, drop, slice_get, Some, IfSome, IfNone};
ghost use Rattle.std.specs.Option.{option_copied};
ghost use Rattle.co_core_tree.specs.declared.exprs.CoreExpr.{CoreExpr as Expression};
ghost use Rattle.co_core_tree.specs.declared.stmts.CoreStmt.{CoreStmt as Statement};
ghost use Rattle.co_eval_data.specs.Seen.{branch_on, dead, inits_in, stmt_in, stmts_in, tries, with_loop};
ghost use Rattle.co_meaning_data.specs.Frames as frames;

use co_core_tree::{CoreExpr, CoreStmt, Handler, Init};
use co_eval_data::Node;
use sqlite_items::Items;

/// A loop: the statement and its parts [stmt.iter].
#[derive(Clone, Copy)]
pub struct Loop<'u> {
    pub whole: &'u CoreStmt,
    pub condition: &'u CoreExpr,
    pub step: &'u CoreExpr,
    pub body: &'u CoreStmt,
}

/// The loop that a frame goes on with.
#[tactic(auto, using(co_eval_data::proofs::Opening::with_loop))]
pub fn loop_in<'u>(node: &Node<'u>) -> Option<Loop<'u>>
    ensures whole { IfSome result (λ x. stmt_in node.now ≡ Some x.whole.now) }
    ensures parts { IfSome result (λ x. (f : Expression → Expression → Statement → frames.Frame) → with_loop f (Some x.whole.now) ≡ f x.condition.now x.step.now x.body.now) }
    ensures none { IfNone result ((f : Expression → Expression → Statement → frames.Frame) → with_loop f (stmt_in node.now) ≡ dead) }
{
    let Node::Stmt(whole) = *node else {
        return None;
    };
    match whole {
        CoreStmt::Loop(condition, step, body, _) => Some(Loop {
            whole,
            condition,
            step,
            body: body.get(),
        }),
        _ => None,
    }
}

/// The two branches of an `if` [stmt.if].
#[derive(Clone, Copy)]
pub struct If<'u> {
    pub then: &'u CoreStmt,
    pub otherwise: &'u CoreStmt,
}

/// The `if` that a frame goes on with.
#[tactic(auto, using(co_eval_data::proofs::Opening::branch_on))]
pub fn if_in<'u>(node: &Node<'u>) -> Option<If<'u>>
    ensures some { IfSome result (λ x. branch_on (stmt_in node.now) ≡ frames.BranchOn x.then.now x.otherwise.now) }
    ensures none { IfNone result (branch_on (stmt_in node.now) ≡ dead) }
{
    let Node::Stmt(whole) = *node else {
        return None;
    };
    match whole {
        CoreStmt::If(_, then, otherwise, _) => Some(If {
            then: then.get(),
            otherwise: otherwise.get(),
        }),
        _ => None,
    }
}

/// The handlers that a frame goes on with [except.handle].
#[tactic(auto, using(co_eval_data::proofs::Opening::tries))]
pub fn handlers_in<'u>(node: &Node<'u>) -> Option<&'u Items<Handler>>
    ensures some { IfSome result (λ handlers. tries (stmt_in node.now) ≡ frames.Tries handlers.now) }
    ensures none { IfNone result (tries (stmt_in node.now) ≡ dead) }
{
    let Node::Stmt(whole) = *node else {
        return None;
    };
    match whole {
        CoreStmt::Try(_, handlers, _) => Some(handlers),
        _ => None,
    }
}

/// The statement that is next.
pub fn next_statement<'u>(node: &Node<'u>) -> Option<&'u CoreStmt>
    ensures { option_copied result ≡ slice_get (stmts_in node.now) 0 }
{
    match *node {
        Node::Stmts(list, from) => list.get(from),
        Node::Handler(handlers, number) => match handlers.get(number) {
            Some(handler) => Some(&handler.body),
            None => None,
        },
        _ => None,
    }
}

/// The initializer that is next.
pub fn next_init<'u>(node: &Node<'u>) -> Option<&'u Init>
    ensures { option_copied result ≡ slice_get (inits_in node.now) 0 }
{
    match *node {
        Node::Inits(list, from) => list.get(from),
        _ => None,
    }
}

/// The statements or initializers that follow the next one.
#[tactic(auto, using(crate::proofs::Rests::one_more, crate::proofs::Rests::past_end))]
pub fn following<'u>(node: &Node<'u>) -> Node<'u>
    ensures statements { stmts_in result ≡ drop 1 (stmts_in node.now) }
    ensures inits { inits_in result ≡ drop 1 (inits_in node.now) }
{
    match *node {
        Node::Stmts(list, from) => {
            if from < list.len() {
                Node::Stmts(list, from + 1)
            } else {
                Node::Nothing
            }
        }
        Node::Inits(list, from) => {
            if from < list.len() {
                Node::Inits(list, from + 1)
            } else {
                Node::Nothing
            }
        }
        _ => Node::Nothing,
    }
}
