use crate::{classes_nest, sizes_fit};
use co_base::{ClassId, FuncId, NoMemory, Num, Span, Text};
use co_core_tree::UnitParts;
use co_types::{ClassInfo, ClassTable, CoType, FieldInfo};
use sqlite_items::Items;
use std::alloc::Global;
use std::test::Fail;

const AT: Span = Span { line: 1, col: 1 };

/// A class with this many fields of a type.
fn class_of(alloc: Global, of: &CoType, count: u32) -> Result<ClassInfo, NoMemory> {
    let mut fields = Items::new(alloc);
    for _ in 0..count {
        fields.push(FieldInfo {
            name: Text::from_slice(alloc, b"x")?,
            of: of.copy(alloc)?,
            span: AT,
            initialized: false,
        })?;
    }
    Ok(ClassInfo {
        name: Text::from_slice(alloc, b"C")?,
        outer: None,
        fields,
        funcs: Items::new(alloc),
        aliases: Items::new(alloc),
        span: AT,
    })
}

/// Adds a class with this many fields of a type.
fn add_class(
    alloc: Global,
    classes: &mut ClassTable,
    of: &CoType,
    count: u32,
) -> Result<(), NoMemory> {
    let info = class_of(alloc, of, count)?;
    if classes.len() < 1024 && info.fields.len() < 10_000 && info.funcs.len() < 100 {
        let _ = classes.add(info)?;
    }
    Ok(())
}

/// Whether a unit fits that has a class with this many fields of a type, after an empty class.
fn fields_fit(alloc: Global, of: &CoType, count: u32) -> Result<bool, NoMemory> {
    let mut classes = ClassTable::new(alloc);
    add_class(alloc, &mut classes, of, 0)?;
    add_class(alloc, &mut classes, of, count)?;
    let unit = UnitParts {
        classes,
        globals: Items::new(alloc),
        funcs: Items::new(alloc),
        texts: Items::new(alloc),
        main: FuncId(0),
    };
    Ok(classes_nest(&unit.classes) && sizes_fit(&unit))
}

#[test]
fn no_class_lies_in_itself(rt: HostRuntime) -> Result<(), Fail> {
    let alloc = rt.alloc();
    let mut classes = ClassTable::new(alloc);
    add_class(alloc, &mut classes, &CoType::Class(ClassId(0)), 0)?;
    add_class(alloc, &mut classes, &CoType::Class(ClassId(0)), 2)?;
    assert!(rt; classes_nest(&classes));
    add_class(alloc, &mut classes, &CoType::Class(ClassId(3)), 1)?;
    add_class(alloc, &mut classes, &CoType::Class(ClassId(2)), 1)?;
    assert!(rt; !classes_nest(&classes));
    Ok(())
}

#[test]
fn a_class_has_no_more_than_1024_words(rt: HostRuntime) -> Result<(), Fail> {
    let alloc = rt.alloc();
    assert!(rt; fields_fit(alloc, &CoType::Num(Num::Bool), 1024)?);
    assert!(rt; !fields_fit(alloc, &CoType::Num(Num::Bool), 1025)?);
    assert!(rt; fields_fit(alloc, &CoType::Class(ClassId(0)), 1024)?);
    assert!(rt; !fields_fit(alloc, &CoType::Class(ClassId(0)), 1025)?);
    assert!(rt; fields_fit(alloc, &CoType::ExceptionPtr, 256)?);
    assert!(rt; !fields_fit(alloc, &CoType::ExceptionPtr, 257)?);
    Ok(())
}
