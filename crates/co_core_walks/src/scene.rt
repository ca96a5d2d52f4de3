use co_core_tree::{CoreFunc, UnitParts};

/// A unit, and the function of it that is looked at.
#[derive(Clone, Copy)]
pub struct Scene<'a> {
    pub unit: &'a UnitParts,
    pub func: &'a CoreFunc,
}
