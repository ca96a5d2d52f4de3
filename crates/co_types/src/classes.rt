ghost use Rattle.std.specs.Prelude.{◌≡◌, IfOk};

use crate::types::CoType;
use co_base::{ClassId, FuncId, NoMemory, Span, Text};
use sqlite_items::Items;
use std::alloc::Global;

/// A non-static data member [class.mem]. `initialized` tells whether it has an initializer.
#[derive(Debug, Drop)]
pub struct FieldInfo {
    pub name: Text,
    pub of: CoType,
    pub span: Span,
    pub initialized: bool,
}

/// A function with its signature. A constructor bears the name of its class, and a destructor that name after `~`.
/// `is_implicit` tells whether it is an implicitly declared special member, `is_defaulted` whether it has the body
/// that such a one has [dcl.fct.def.default].
#[derive(Debug, Drop)]
pub struct FuncInfo {
    pub id: FuncId,
    pub name: Text,
    pub params: Items<CoType>,
    pub result: CoType,
    pub is_static: bool,
    pub is_noexcept: bool,
    pub is_deleted: bool,
    pub is_implicit: bool,
    pub is_defaulted: bool,
    pub span: Span,
}

/// A member that names a type [dcl.typedef].
#[derive(Debug, Drop)]
pub struct AliasInfo {
    pub name: Text,
    pub of: CoType,
    pub span: Span,
}

/// A class with its members in the order of the text, the implicit functions last [class].
#[derive(Debug, Drop)]
pub struct ClassInfo {
    pub name: Text,
    /// The class in which it is declared.
    pub outer: Option<ClassId>,
    pub fields: Items<FieldInfo>,
    pub funcs: Items<FuncInfo>,
    pub aliases: Items<AliasInfo>,
    pub span: Span,
}

impl FieldInfo {
    fn copy(&self, alloc: Global) -> Result<FieldInfo, NoMemory>
        ensures { IfOk result (λ f. f ≡ self.now) }
    {
        let name = self.name.copy()?;
        let of = self.of.copy(alloc)?;
        Ok(FieldInfo {
            name,
            of,
            span: self.span,
            initialized: self.initialized,
        })
    }
}

impl FuncInfo {
    fn copy(&self, alloc: Global) -> Result<FuncInfo, NoMemory>
        ensures { IfOk result (λ f. f ≡ self.now) }
    {
        let name = self.name.copy()?;
        let params = copy_types(alloc, self.params.as_slice())?;
        let result = self.result.copy(alloc)?;
        Ok(FuncInfo {
            id: self.id,
            name,
            params,
            result,
            is_static: self.is_static,
            is_noexcept: self.is_noexcept,
            is_deleted: self.is_deleted,
            is_implicit: self.is_implicit,
            is_defaulted: self.is_defaulted,
            span: self.span,
        })
    }
}

impl AliasInfo {
    fn copy(&self, alloc: Global) -> Result<AliasInfo, NoMemory>
        ensures { IfOk result (λ a. a ≡ self.now) }
    {
        let name = self.name.copy()?;
        let of = self.of.copy(alloc)?;
        Ok(AliasInfo {
            name,
            of,
            span: self.span,
        })
    }
}

impl ClassInfo {
    /// An info that is equal to this one.
    pub fn copy(&self, alloc: Global) -> Result<ClassInfo, NoMemory>
        ensures { IfOk result (λ i. i ≡ self.now) }
    {
        let name = self.name.copy()?;
        let fields = copy_fields(alloc, self.fields.as_slice())?;
        let funcs = copy_funcs(alloc, self.funcs.as_slice())?;
        let aliases = copy_aliases(alloc, self.aliases.as_slice())?;
        Ok(ClassInfo {
            name,
            outer: self.outer,
            fields,
            funcs,
            aliases,
            span: self.span,
        })
    }
}

fn copy_types(alloc: Global, types: &[CoType]) -> Result<Items<CoType>, NoMemory>
    ensures { IfOk result (λ copied. copied ≡ types.now) }
{
    let mut copied = Items::new(alloc);
    for item in types {
        copied.push(item.copy(alloc)?)?;
    }
    Ok(copied)
}

fn copy_fields(alloc: Global, fields: &[FieldInfo]) -> Result<Items<FieldInfo>, NoMemory>
    ensures { IfOk result (λ copied. copied ≡ fields.now) }
{
    let mut copied = Items::new(alloc);
    for item in fields {
        copied.push(item.copy(alloc)?)?;
    }
    Ok(copied)
}

fn copy_funcs(alloc: Global, funcs: &[FuncInfo]) -> Result<Items<FuncInfo>, NoMemory>
    ensures { IfOk result (λ copied. copied ≡ funcs.now) }
{
    let mut copied = Items::new(alloc);
    for item in funcs {
        copied.push(item.copy(alloc)?)?;
    }
    Ok(copied)
}

fn copy_aliases(alloc: Global, aliases: &[AliasInfo]) -> Result<Items<AliasInfo>, NoMemory>
    ensures { IfOk result (λ copied. copied ≡ aliases.now) }
{
    let mut copied = Items::new(alloc);
    for item in aliases {
        copied.push(item.copy(alloc)?)?;
    }
    Ok(copied)
}
