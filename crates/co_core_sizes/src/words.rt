ghost use Rattle.std.specs.Prelude.{◌≡◌, ◌+◌, ◌<◌, true, slice_get, Some, IfSome, IfNone, IsTrue};
ghost use Rattle.std.specs.List.{list_all};
ghost use Rattle.co_core_tree.specs.Sizes.{at_least_one, class_words_within, fields_words, head_words, info_words};
ghost use Rattle.co_core.specs.Counts as spec;
ghost use Rattle.co_core_sizes.specs.Counted.{AreCounted, HasWords};

use crate::nesting::{class_info, noted};
use crate::statements::statements_fit;
use co_base::ClassId;
use co_core_tree::{CoreFunc, UnitParts};
use co_types::{ClassInfo, ClassTable, FieldInfo, Head};

/// What is left of this many words beside so many, if they are enough.
fn beside_words(words: u32, room: u32) -> Option<u32>
    ensures some { IfSome result (λ left. left + words ≡ room) }
    ensures none { IfNone result (room < words) }
{
    room.checked_sub(words)
}

/// Notes the words of a class, if there is room for them.
fn note_words(classes: &ClassTable, counted: &mut [u32], class: ClassId, words: u32)
    requires words { HasWords classes.now class.0 words }
    requires counted { AreCounted classes.now counted.old }
    ensures { AreCounted classes.now counted.new }
{
    let at = class.0 as usize;
    if at < counted.len() {
        counted[at] = words;
    }
}

/// What is left of this many words when an object of a type lies in them, if they are enough.
#[cycle(words)]
fn beside_head(
    classes: &ClassTable,
    head: Head,
    depth: u32,
    room: u32,
    counted: &mut [u32],
) -> Option<u32>
    requires nests { spec.head_nests (λ c. spec.nests_within depth classes.now c) head ≡ true }
    requires counted { AreCounted classes.now counted.old }
    ensures counted { AreCounted classes.now counted.new }
    ensures some { IfSome result (λ left. left + head_words (λ c. class_words_within depth classes.now c) head ≡ room) }
    ensures none { IfNone result (room < head_words (λ c. class_words_within depth classes.now c) head) }
{
    match head {
        Head::Class(class) => beside_class(classes, class, depth, room, counted),
        Head::ExceptionPtr => beside_words(4, room),
        _ => beside_words(1, room),
    }
}

/// The fields of each class are gone through once.
#[cycle(words)]
pub(crate) fn beside_class(
    classes: &ClassTable,
    class: ClassId,
    depth: u32,
    room: u32,
    counted: &mut [u32],
) -> Option<u32>
    requires nests { spec.nests_within depth classes.now class ≡ true }
    requires counted { AreCounted classes.now counted.old }
    ensures counted { AreCounted classes.now counted.new }
    ensures some { IfSome result (λ left. left + class_words_within depth classes.now class ≡ room) }
    ensures none { IfNone result (room < class_words_within depth classes.now class) }
{
    let known = noted(counted, class);
    if 0 < known {
        return beside_words(known, room);
    }
    if depth == 0 {
        return beside_words(1, room);
    }
    match class_info(classes, class) {
        Some(info) => beside_new(classes, class, info, depth - 1, room, counted),
        None => beside_words(1, room),
    }
}

/// Notes the words of a class that was not gone through before.
#[cycle(words)]
fn beside_new(
    classes: &ClassTable,
    class: ClassId,
    info: &ClassInfo,
    depth: u32,
    room: u32,
    counted: &mut [u32],
) -> Option<u32>
    requires class { Some info.now ≡ slice_get classes.now class.0 }
    requires nests { list_all (spec.field_nests (λ c. spec.nests_within depth classes.now c)) info.now.fields ≡ true }
    requires counted { AreCounted classes.now counted.old }
    ensures counted { AreCounted classes.now counted.new }
    ensures some { IfSome result (λ left. left + class_words_within (depth + 1) classes.now class ≡ room) }
    ensures none { IfNone result (room < class_words_within (depth + 1) classes.now class) }
{
    match beside_info(classes, info.fields.as_slice(), depth, room, counted) {
        Some(left) => {
            note_words(classes, counted, class, room - left);
            Some(left)
        }
        None => None,
    }
}

/// What is left of this many words when an object with these fields lies in them, which takes at least one.
#[cycle(words)]
fn beside_info(
    classes: &ClassTable,
    fields: &[FieldInfo],
    depth: u32,
    room: u32,
    counted: &mut [u32],
) -> Option<u32>
    requires nests { list_all (spec.field_nests (λ c. spec.nests_within depth classes.now c)) fields.now ≡ true }
    requires counted { AreCounted classes.now counted.old }
    ensures counted { AreCounted classes.now counted.new }
    ensures some { IfSome result (λ left. left + at_least_one (fields_words (λ c. class_words_within depth classes.now c) fields.now) ≡ room) }
    ensures none { IfNone result (room < at_least_one (fields_words (λ c. class_words_within depth classes.now c) fields.now)) }
{
    match beside_fields(classes, fields, depth, room, counted) {
        Some(left) => {
            if left == room {
                beside_words(1, room)
            } else {
                Some(left)
            }
        }
        None => None,
    }
}

#[cycle(words)]
fn beside_fields(
    classes: &ClassTable,
    fields: &[FieldInfo],
    depth: u32,
    room: u32,
    counted: &mut [u32],
) -> Option<u32>
    requires nests { list_all (spec.field_nests (λ c. spec.nests_within depth classes.now c)) fields.now ≡ true }
    requires counted { AreCounted classes.now counted.old }
    ensures counted { AreCounted classes.now counted.new }
    ensures some { IfSome result (λ left. left + fields_words (λ c. class_words_within depth classes.now c) fields.now ≡ room) }
    ensures none { IfNone result (room < fields_words (λ c. class_words_within depth classes.now c) fields.now) }
{
    let mut left = room;
    let mut rest = fields;
    while let [field, next @ ..] = rest {
        match beside_head(classes, field.of.head(), depth, left, counted) {
            Some(fewer) => left = fewer,
            None => return None,
        }
        rest = next;
    }
    Some(left)
}

#[tactic(auto, using(crate::proofs::Classes::each_false, crate::proofs::Classes::each_next, crate::proofs::Same::later_classes, crate::proofs::Same::this_class))]
fn all_words_fit(classes: &ClassTable, counted: &mut [u32]) -> bool
    requires nest { spec.classes_nest classes.now ≡ true }
    requires counted { AreCounted classes.now counted.old }
    ensures { result ≡ spec.words_fit classes.now }
{
    let count = classes.len();
    for number in 0..count {
        if beside_class(classes, ClassId(number), count, 1024, counted).is_none() {
            return false;
        }
    }
    true
}

fn words_fit(classes: &ClassTable) -> bool
    requires { spec.classes_nest classes.now ≡ true }
    ensures { result ≡ spec.words_fit classes.now }
{
    let mut counted = [0u32; 1024];
    all_words_fit(classes, &mut counted)
}

fn funcs_fit(funcs: &[CoreFunc]) -> bool
    ensures { result ≡ list_all spec.statements_fit funcs.now }
{
    funcs.iter().all(statements_fit)
}

/// Whether no class has more than 1,024 words and no function more than 1,048,576 statements, in a unit whose classes nest.
/// It takes no memory.
pub fn sizes_fit(unit: &UnitParts) -> bool
    requires { IsTrue (spec.classes_nest unit.now.classes) }
    ensures { result ≡ spec.sizes_fit unit.now }
{
    words_fit(&unit.classes) && funcs_fit(unit.funcs.as_slice())
}
