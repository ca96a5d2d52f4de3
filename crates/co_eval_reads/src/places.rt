ghost use Rattle.std.specs.Prelude.{◌≡◌, ◌≤◌, ◌+◌, ◌^◌, Some, get_or, take, slice_get, IfOk, IfSome, IfNone, ℕ};
ghost use Rattle.std.specs.Option.{option_copied};
ghost use Rattle.co_core_tree.specs.Sizes as sizes;
ghost use Rattle.co_eval_data.specs.Agents.{IsTabled, local_of};
ghost use Rattle.co_eval_data.specs.Seen.{place_of};
ghost use Rattle.co_meaning_data.specs.Store as store;
ghost use Rattle.co_meaning_data.specs.Turn as turn;

use crate::funcs::class_info;
use crate::objects::object_at;
use co_base::{ClassId, NoMemory};
use co_eval_data::{Here, Place, Program};
use co_meaning_data::Cell;
use co_types::{ClassTable, CoType, FieldInfo, Head};
use sqlite_items::at;

/// The words of a class that are noted, 1 where there are none.
fn noted(words: &[u64], class: ClassId) -> u64
    ensures { result ≡ get_or words.now class.0 1 }
{
    match words.get(class.0 as usize) {
        Some(words) => *words,
        None => 1,
    }
}

/// The words of an object of a type in a program.
fn words_in(program: &Program<'_>, of: &CoType) -> u64
    requires { IsTabled program.now }
    ensures { result ≡ sizes.words program.now.unit.now.classes of.now }
{
    match of.head() {
        Head::Class(class) => noted(program.words.as_slice(), class),
        Head::ExceptionPtr => 4,
        _ => 1,
    }
}

/// The words of an object of a type.
#[tactic(auto, unfolding(co_eval_data::specs::Agents::local_of))]
pub fn words(here: &Here<'_, '_>, of: &CoType) -> u64
    requires { IsTabled here.now.program.now }
    ensures { result ≡ sizes.words (turn.classes (local_of here.now)) of.now }
{
    words_in(here.program, of)
}

/// The words of an object of a type, where there is one.
pub fn words_of(here: &Here<'_, '_>, of: Option<&CoType>) -> u64
    requires { IsTabled here.now.program.now }
    ensures { result ≡ store.words_of (turn.classes (local_of here.now)) (option_copied of.entry) }
{
    match of {
        Some(of) => words(here, of),
        None => 0,
    }
}

fn fields_in(classes: &ClassTable, class: ClassId) -> &[FieldInfo]
    ensures { result.now ≡ store.fields_in (slice_get classes.now class.0) }
{
    match class_info(classes, class) {
        Some(info) => info.fields.as_slice(),
        None => &[],
    }
}

/// The fields of the objects of a type; there are none where it is no class.
fn fields_of<'u>(classes: &'u ClassTable, of: &CoType) -> &'u [FieldInfo]
    ensures { result.now ≡ store.fields_of classes.now of.now }
{
    match of.head() {
        Head::Class(class) => fields_in(classes, class),
        _ => &[],
    }
}

/// The fields of the objects of a type, of which there are none where it is no class.
#[tactic(auto, unfolding(co_eval_data::specs::Agents::local_of))]
pub fn fields<'u>(here: &Here<'_, 'u>, of: &CoType) -> &'u [FieldInfo]
    ensures { result.now ≡ store.fields_of (turn.classes (local_of here.now)) of.now }
{
    let unit = here.program.unit;
    fields_of(&unit.classes, of)
}

/// The type of the field of this number of the objects of a type.
fn field_type<'u>(classes: &'u ClassTable, of: &CoType, field: u32) -> Option<&'u CoType>
    ensures { option_copied result ≡ store.part_step classes.now field (Some of.now) }
{
    match at(fields_of(classes, of), field as usize) {
        Some(info) => Some(&info.of),
        None => None,
    }
}

/// The type of the part of an object to which a path leads.
#[tactic(auto, using(crate::proofs::Paths::no_part))]
fn part_type<'u>(classes: &'u ClassTable, of: &'u CoType, path: &[u32]) -> Option<&'u CoType>
    ensures { option_copied result ≡ store.part_type classes.now (Some of.now) path.now }
{
    let mut part = of;
    let mut rest = path;
    while let [field, next @ ..] = rest {
        match field_type(classes, part, *field) {
            Some(inner) => part = inner,
            None => return None,
        }
        rest = next;
    }
    Some(part)
}

/// The type of what is at a place.
#[tactic(auto, using(crate::proofs::Paths::no_part), unfolding(co_eval_data::specs::Agents::local_of))]
pub fn type_at<'u>(here: &Here<'_, 'u>, place: &Place) -> Option<&'u CoType>
    ensures { option_copied result ≡ store.type_at (turn.classes (local_of here.now)) (turn.store (local_of here.now)) (place_of place.now) }
{
    let unit = here.program.unit;
    match object_at(here, place.object) {
        Some(object) => part_type(&unit.classes, object.of, place.path.as_slice()),
        None => None,
    }
}

/// A sum of words, where it has no more than 64 bits.
fn plus(words: u64, more: u64) -> Option<u64>
    ensures some { IfSome result (λ sum. sum ≡ words + more) }
    ensures none { IfNone result (2 ^ 64 ≤ words + more) }
{
    words.checked_add(more)
}

/// The words of fields, where they are no more than 64 bits can tell.
#[tactic(auto, using(crate::proofs::Paths::fields_on))]
fn fields_words(program: &Program<'_>, fields: &[FieldInfo]) -> Option<u64>
    requires { IsTabled program.now }
    ensures some { IfSome result (λ sum. sum ≡ sizes.fields_words (λ c. sizes.class_words program.now.unit.now.classes c) fields.now) }
    ensures none { IfNone result (2 ^ 64 ≤ sizes.fields_words (λ c. sizes.class_words program.now.unit.now.classes c) fields.now) }
{
    let mut sum = 0;
    let mut rest = fields;
    while let [field, next @ ..] = rest {
        match plus(sum, words_in(program, &field.of)) {
            Some(more) => sum = more,
            None => return None,
        }
        rest = next;
    }
    Some(sum)
}

#[tactic(auto, using(crate::proofs::Paths::all_taken))]
fn first_fields(fields: &[FieldInfo], count: u32) -> &[FieldInfo]
    ensures { result.now ≡ take count fields.now }
{
    let count = count as usize;
    if count < fields.len() {
        &fields[..count]
    } else {
        fields
    }
}

/// How many words of an object of the type stand before the field of this number.
fn words_before(program: &Program<'_>, of: &CoType, field: u32) -> Option<u64>
    requires { IsTabled program.now }
    ensures some { IfSome result (λ n. n ≡ store.offset_step program.now.unit.now.classes (Some of.now) field) }
    ensures none { IfNone result (2 ^ 64 ≤ store.offset_step program.now.unit.now.classes (Some of.now) field) }
{
    let fields = fields_of(&program.unit.classes, of);
    fields_words(program, first_fields(fields, field))
}

/// How many words of an object of the type stand before the part to which the path leads.
#[tactic(auto, using(crate::proofs::Paths::no_offset))]
fn part_offset<'u>(program: &Program<'u>, of: &'u CoType, path: &[u32]) -> Option<u64>
    requires { IsTabled program.now }
    ensures some { IfSome result (λ n. n ≡ store.part_offset program.now.unit.now.classes (Some of.now) path.now) }
    ensures none { IfNone result (2 ^ 64 ≤ store.part_offset program.now.unit.now.classes (Some of.now) path.now) }
{
    let unit = program.unit;
    let mut offset = 0;
    let mut part = of;
    let mut rest = path;
    while let [field, next @ ..] = rest {
        let before = words_before(program, part, *field)?;
        offset = plus(offset, before)?;
        match field_type(&unit.classes, part, *field) {
            Some(inner) => part = inner,
            None => return Some(offset),
        }
        rest = next;
    }
    Some(offset)
}

/// How many words of the object stand before the part at a place, where 64 bits can tell.
#[tactic(auto, using(crate::proofs::Paths::no_offset), unfolding(co_eval_data::specs::Agents::local_of))]
fn offset_of(here: &Here<'_, '_>, place: &Place) -> Option<u64>
    requires { IsTabled here.now.program.now }
    ensures some { IfSome result (λ n. n ≡ store.offset_at (turn.classes (local_of here.now)) (turn.store (local_of here.now)) (place_of place.now)) }
    ensures none { IfNone result (2 ^ 64 ≤ store.offset_at (turn.classes (local_of here.now)) (turn.store (local_of here.now)) (place_of place.now)) }
{
    match object_at(here, place.object) {
        Some(object) => part_offset(here.program, object.of, place.path.as_slice()),
        None => Some(0),
    }
}

/// How many words of the object stand before the part at a place.
pub fn offset_at(here: &Here<'_, '_>, place: &Place) -> Result<u64, NoMemory>
    requires { IsTabled here.now.program.now }
    ensures { IfOk result (λ n. n ≡ store.offset_at (turn.classes (local_of here.now)) (turn.store (local_of here.now)) (place_of place.now)) }
{
    match offset_of(here, place) {
        Some(offset) => Ok(offset),
        None => Err(NoMemory),
    }
}

/// The cell that is so many after as many others.
fn cell_after(cells: &[Cell], before: Option<u64>, word: u64) -> Option<&Cell>
    ensures some { IfSome before (λ n. option_copied result ≡ slice_get cells.now (n + word)) }
    ensures none { IfNone before ((n : ℕ) → 2 ^ 64 ≤ n → option_copied result ≡ slice_get cells.now (n + word)) }
{
    match before {
        Some(before) => match plus(before, word) {
            Some(number) => at(cells, number as usize),
            None => None,
        },
        None => None,
    }
}

/// The cell of the word of this number of what is at a place.
#[tactic(auto, unfolding(co_eval_data::specs::Agents::local_of))]
pub fn cell_at<'a>(here: &Here<'a, '_>, place: &Place, word: u64) -> Option<&'a Cell>
    requires { IsTabled here.now.program.now }
    ensures { option_copied result ≡ store.cell_at (turn.classes (local_of here.now)) (turn.store (local_of here.now)) (place_of place.now) word }
{
    let before = offset_of(here, place);
    match object_at(here, place.object) {
        Some(object) => cell_after(object.cells.as_slice(), before, word),
        None => None,
    }
}
