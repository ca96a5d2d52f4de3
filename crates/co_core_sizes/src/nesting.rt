ghost use Rattle.std.specs.Prelude.{◌≡◌, ◌≤◌, ◌<◌, ◌+◌, ◌^◌, false, slice_get, Some, get_or, ℕ, nat_le, ◌&&◌, IfSome, IfNone};
ghost use Rattle.std.specs.Option.{option_copied};
ghost use Rattle.std.specs.List.{list_all};
ghost use Rattle.co_core.specs.Counts as spec;
ghost use Rattle.co_core_sizes.specs.Depths.{AreNoted, HasDepth, HeadHasDepth, FieldsHaveDepth};

use co_base::ClassId;
use co_types::{ClassInfo, ClassTable, FieldInfo, Head};

/// The class of this number.
pub(crate) fn class_info(classes: &ClassTable, class: ClassId) -> Option<&ClassInfo>
    ensures { option_copied result ≡ slice_get classes.now class.0 }
{
    if class.0 < classes.len() {
        Some(classes.info(class))
    } else {
        None
    }
}

/// The depth that is noted of a class, 0 where there is none.
pub(crate) fn noted(depths: &[u32], class: ClassId) -> u32
    ensures { result ≡ get_or depths.now class.0 0 }
{
    match depths.get(class.0 as usize) {
        Some(depth) => *depth,
        None => 0,
    }
}

/// Notes the depth of a class, if there is room for it.
fn note(classes: &ClassTable, depths: &mut [u32], class: ClassId, depth: u32)
    requires depth { HasDepth classes.now class.0 depth }
    requires noted { AreNoted classes.now depths.old }
    ensures { AreNoted classes.now depths.new }
{
    let at = class.0 as usize;
    if at < depths.len() {
        depths[at] = depth;
    }
}

/// How deep the objects in an object of the class lie in one another, if that is no deeper than `left`. Each class is walked
/// over once where none contains itself.
#[cycle(nesting)]
fn class_depth(classes: &ClassTable, class: ClassId, left: u32, depths: &mut [u32]) -> Option<u32>
    requires { AreNoted classes.now depths.old }
    ensures noted { AreNoted classes.now depths.new }
    ensures some { IfSome result (λ depth. (depth ≤ left) × HasDepth classes.now class.0 depth) }
    ensures none { IfNone result (spec.nests_within left classes.now class ≡ false) }
{
    let known = noted(depths, class);
    if 0 < known {
        return within(known, left);
    }
    if left == 0 {
        return None;
    }
    match class_info(classes, class) {
        Some(info) => info_depth(classes, class, info, left - 1, depths),
        None => None,
    }
}

fn within(depth: u32, left: u32) -> Option<u32>
    ensures some { IfSome result (λ d. (d ≡ depth) × (depth ≤ left)) }
    ensures none { IfNone result (left < depth) }
{
    if depth <= left { Some(depth) } else { None }
}

#[cycle(nesting)]
fn info_depth(
    classes: &ClassTable,
    class: ClassId,
    info: &ClassInfo,
    left: u32,
    depths: &mut [u32],
) -> Option<u32>
    requires class { slice_get classes.now class.0 ≡ Some info.now }
    requires noted { AreNoted classes.now depths.old }
    requires left { left + 1 < 2 ^ 32 }
    ensures noted { AreNoted classes.now depths.new }
    ensures some { IfSome result (λ depth. (depth ≤ left + 1) × HasDepth classes.now class.0 depth) }
    ensures none { IfNone result (spec.nests_within (left + 1) classes.now class ≡ false) }
{
    match fields_depth(classes, info.fields.as_slice(), left, depths) {
        Some(depth) => {
            note(classes, depths, class, depth + 1);
            Some(depth + 1)
        }
        None => None,
    }
}

#[cycle(nesting)]
fn head_depth(classes: &ClassTable, head: Head, left: u32, depths: &mut [u32]) -> Option<u32>
    requires { AreNoted classes.now depths.old }
    ensures noted { AreNoted classes.now depths.new }
    ensures some { IfSome result (λ depth. (depth ≤ left) × HeadHasDepth classes.now head depth) }
    ensures none { IfNone result (spec.head_nests (λ c. spec.nests_within left classes.now c) head ≡ false) }
{
    match head {
        Head::Class(class) => class_depth(classes, class, left, depths),
        _ => Some(0),
    }
}

/// The greatest depth of the objects in the fields, if that is no deeper than `left`.
#[cycle(nesting)]
#[tactic(auto, using(crate::proofs::Deeper::one_more, crate::proofs::Deeper::one_too_deep))]
fn fields_depth(
    classes: &ClassTable,
    fields: &[FieldInfo],
    left: u32,
    depths: &mut [u32],
) -> Option<u32>
    requires { AreNoted classes.now depths.old }
    ensures noted { AreNoted classes.now depths.new }
    ensures some { IfSome result (λ depth. (depth ≤ left) × FieldsHaveDepth classes.now fields.now depth) }
    ensures none { IfNone result (list_all (spec.field_nests (λ c. spec.nests_within left classes.now c)) fields.now ≡ false) }
{
    let mut deepest = 0;
    let mut rest = fields;
    while let [field, next @ ..] = rest {
        match head_depth(classes, field.of.head(), left, depths) {
            Some(depth) => deepest = deeper(deepest, depth),
            None => return None,
        }
        rest = next;
    }
    Some(deepest)
}

#[tactic(auto, using(crate::proofs::Deeper::is_second, crate::proofs::Deeper::is_first))]
fn deeper(a: u32, b: u32) -> u32
    ensures { (d : ℕ) → nat_le result d ≡ (nat_le a d && nat_le b d) }
{
    if a < b { b } else { a }
}

/// Whether no class contains an object of its own class, directly or through its fields. It takes no memory.
pub fn classes_nest(classes: &ClassTable) -> bool
    ensures { result ≡ spec.classes_nest classes.now }
{
    let mut depths = [0u32; 1024];
    all_nest(classes, &mut depths)
}

#[tactic(auto, using(crate::proofs::Classes::each_false, crate::proofs::Classes::each_next, crate::proofs::Deeper::nests_fit))]
fn all_nest(classes: &ClassTable, depths: &mut [u32]) -> bool
    requires { AreNoted classes.now depths.old }
    ensures { result ≡ spec.classes_nest classes.now }
{
    let count = classes.len();
    for number in 0..count {
        if class_depth(classes, ClassId(number), count, depths).is_none() {
            return false;
        }
    }
    true
}
