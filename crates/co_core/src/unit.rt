ghost use Rattle.std.specs.Prelude.{◌≡◌, IfOk};
ghost use Rattle.co_core.specs.Valid.{IsValid};

use co_base::NoMemory;
use co_core_copy::copy;
use co_core_tree::UnitParts;
use std::alloc::Global;
use std::marker::Model;

/// A program in which each conversion, construction, scope and implicit call is written out, and which is valid. Contracts
/// see its parts.
#[derive(Drop)]
pub struct Unit {
    parts: UnitParts,
}

impl Model for Unit {
    ghost use Rattle.co_core_tree.specs.declared.units.UnitParts.{UnitParts};
    ghost use Rattle.co_core.specs.Valid.{IsValid};
    ghost use Rattle.co_types.specs.contracts.types.CoType as of_type;
    ghost use Rattle.co_core_tree.specs.contracts.exprs.AwaitPlan as of_await;
    ghost use Rattle.co_core_tree.specs.contracts.exprs.CoreExpr as of_expr;
    ghost use Rattle.co_core_tree.specs.contracts.exprs.Init as of_init;
    ghost use Rattle.co_core_tree.specs.contracts.stmts.CoreStmt as of_stmt;
    ghost use Rattle.std.specs.Coded.{codes};

    ghost Value = { UnitParts };

    ghost coded = { Prim.hlevel (codes, of_type.the_row.coded, of_await.the_row.coded, of_expr.the_row.coded, of_init.the_row.coded, of_stmt.the_row.coded) };

    ghost view = { λ u. u.parts };

    ghost invariant = { λ u. IsValid u.parts };
}

impl Unit {
    /// The unit of these parts. It takes no memory.
    pub fn new(parts: UnitParts) -> Unit
        requires { IsValid parts }
        ensures { result ≡ parts }
    {
        Unit { parts }
    }

    /// The parts, which are valid.
    pub fn parts(&self) -> &UnitParts
        ensures parts { result.now ≡ self.now }
        ensures valid { IsValid result.now }
    {
        &self.parts
    }

    /// The same unit, in memory of its own.
    pub fn copy(&self, alloc: Global) -> Result<Unit, NoMemory>
        ensures { IfOk result (λ copied. copied ≡ self.now) }
    {
        let parts = copy(alloc, &self.parts)?;
        Ok(Unit::new(parts))
    }
}
