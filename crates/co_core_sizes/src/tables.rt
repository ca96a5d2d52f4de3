ghost use Rattle.std.specs.Prelude.{◌≡◌, ◌≤◌, length, true, get_or, IfOk};
ghost use Rattle.co_core_tree.specs.Sizes.{class_words};
ghost use Rattle.co_core.specs.Counts as spec;
ghost use Rattle.co_core_sizes.specs.Counted.{AreCounted};

use crate::words::beside_class;
use co_base::{ClassId, NoMemory};
use co_types::ClassTable;
use sqlite_items::Items;
use std::alloc::Global;

fn words_of(classes: &ClassTable, class: ClassId, counted: &mut [u32]) -> u64
    requires nests { spec.nests_within (length classes.now) classes.now class ≡ true }
    requires fits { class_words classes.now class ≤ 1024 }
    requires counted { AreCounted classes.now counted.old }
    ensures counted { AreCounted classes.now counted.new }
    ensures words { result ≡ class_words classes.now class }
{
    match beside_class(classes, class, classes.len(), 1024, counted) {
        Some(left) => u64::from(1024 - left),
        None => 1024,
    }
}

#[tactic(auto, using(crate::proofs::Tabled::all_words, crate::proofs::Tabled::fits_at, crate::proofs::Tabled::nests_at, crate::proofs::Tabled::no_words, crate::proofs::Tabled::one_more))]
fn all_words(
    alloc: Global,
    classes: &ClassTable,
    counted: &mut [u32],
) -> Result<Items<u64>, NoMemory>
    requires nest { spec.classes_nest classes.now ≡ true }
    requires fit { spec.words_fit classes.now ≡ true }
    requires counted { AreCounted classes.now counted.old }
    ensures { IfOk result (λ words. (class : ClassId) → get_or words class.0 1 ≡ class_words classes.now class) }
{
    let mut words = Items::new(alloc);
    for number in 0..classes.len() {
        words.push(words_of(classes, ClassId(number), counted))?;
    }
    Ok(words)
}

/// The words of each class, by its number, where the classes nest and fit.
pub fn words_of_classes(alloc: Global, classes: &ClassTable) -> Result<Items<u64>, NoMemory>
    requires nest { spec.classes_nest classes.now ≡ true }
    requires fit { spec.words_fit classes.now ≡ true }
    ensures { IfOk result (λ words. (class : ClassId) → get_or words class.0 1 ≡ class_words classes.now class) }
{
    let mut counted = [0u32; 1024];
    all_words(alloc, classes, &mut counted)
}
