/// The number of a function in its unit or image.
#[derive(Clone, Copy, Debug, PartialEq, Eq)]
pub struct FuncId(pub u32);

/// The number of a class in its table.
#[derive(Clone, Copy, Debug, PartialEq, Eq)]
pub struct ClassId(pub u32);

/// The number of a slot in its function.
#[derive(Clone, Copy, Debug, PartialEq, Eq)]
pub struct SlotId(pub u32);

/// The number of a coroutine in its run, from 1 on.
#[derive(Clone, Copy, Debug, PartialEq, Eq)]
pub struct CoroId(pub u64);

/// The number of a suspension point in its function.
#[derive(Clone, Copy, Debug, PartialEq, Eq)]
pub struct SuspendId(pub u32);
