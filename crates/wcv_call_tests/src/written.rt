// Defined types that are written: a form and value types behind it.
use std::alloc::Global;
use wcv_core::{OutOfMemory, PrimitiveValType, Text};
use wcv_syntax::{ComponentDefinedType, ComponentValType, VariantCase};

const PRIMITIVES: &[(&str, PrimitiveValType)] = &[
    ("bool", PrimitiveValType::Bool),
    ("s8", PrimitiveValType::S8),
    ("u8", PrimitiveValType::U8),
    ("s16", PrimitiveValType::S16),
    ("u16", PrimitiveValType::U16),
    ("s32", PrimitiveValType::S32),
    ("u32", PrimitiveValType::U32),
    ("s64", PrimitiveValType::S64),
    ("u64", PrimitiveValType::U64),
    ("f32", PrimitiveValType::F32),
    ("f64", PrimitiveValType::F64),
    ("char", PrimitiveValType::Char),
    ("string", PrimitiveValType::String),
    ("error-context", PrimitiveValType::ErrorContext),
];

// A value type: an index, or a primitive by its name.
fn value(word: &str) -> Option<ComponentValType> {
    for (name, ty) in PRIMITIVES {
        if *name == word {
            return Some(ComponentValType::Primitive(*ty));
        }
    }
    match word.parse() {
        Ok(index) => Some(ComponentValType::Ty(index)),
        Err(_) => None,
    }
}

// The value types of words, where `256*u8` stands for 256 of them.
fn values(alloc: Global, words: &str) -> Result<Vec<Option<ComponentValType>>, OutOfMemory> {
    let mut values = Vec::new(alloc);
    for word in words.split(' ') {
        let (count, word) = word.split_once('*').unwrap_or(("1", word));
        let count: usize = count.parse().unwrap_or(0);
        for _ in 0..count {
            values.push(value(word))?;
        }
    }
    Ok(values)
}

// The name at a position.
fn name(alloc: Global, k: usize) -> Result<Text, OutOfMemory> {
    let name = format!(in alloc; "n{k}")?;
    Text::new(alloc, name.as_str())
}

fn fields(
    alloc: Global,
    values: &[Option<ComponentValType>],
) -> Result<Vec<(Text, ComponentValType)>, OutOfMemory> {
    let mut fields = Vec::new(alloc);
    for k in 0..values.len() {
        if let Some(ty) = values[k] {
            fields.push((name(alloc, k)?, ty))?;
        }
    }
    Ok(fields)
}

fn cases(
    alloc: Global,
    values: &[Option<ComponentValType>],
) -> Result<Vec<VariantCase>, OutOfMemory> {
    let mut cases = Vec::new(alloc);
    for k in 0..values.len() {
        cases.push(VariantCase {
            name: name(alloc, k)?,
            ty: values[k],
        })?;
    }
    Ok(cases)
}

fn names(alloc: Global, count: usize) -> Result<Vec<Text>, OutOfMemory> {
    let mut names = Vec::new(alloc);
    for k in 0..count {
        names.push(name(alloc, k)?)?;
    }
    Ok(names)
}

fn all(
    alloc: Global,
    values: &[Option<ComponentValType>],
) -> Result<Vec<ComponentValType>, OutOfMemory> {
    let mut types = Vec::new(alloc);
    for value in values {
        if let Some(ty) = value {
            types.push(*ty)?;
        }
    }
    Ok(types)
}

// The type at a position, where there is one.
fn at(values: &[Option<ComponentValType>], k: usize) -> Option<ComponentValType> {
    match values.get(k) {
        Some(ty) => *ty,
        None => None,
    }
}

// A number is written as an index is.
fn number(ty: ComponentValType) -> u32 {
    match ty {
        ComponentValType::Ty(number) => number,
        ComponentValType::Primitive(_) => 0,
    }
}

// A form without names.
fn plain(
    form: &str,
    a: Option<ComponentValType>,
    b: Option<ComponentValType>,
) -> ComponentDefinedType {
    let none = ComponentValType::Primitive(PrimitiveValType::Bool);
    let (first, second) = (a.unwrap_or(none), b.unwrap_or(none));
    match form {
        "list" => ComponentDefinedType::List(first),
        "map" => ComponentDefinedType::Map(first, second),
        "fixed-list" => ComponentDefinedType::FixedLengthList(first, number(second)),
        "option" => ComponentDefinedType::Option(first),
        "result" => ComponentDefinedType::Result { ok: a, err: b },
        "own" => ComponentDefinedType::Own(number(first)),
        "borrow" => ComponentDefinedType::Borrow(number(first)),
        "future" => ComponentDefinedType::Future(a),
        "stream" => ComponentDefinedType::Stream(a),
        _ => match value(form) {
            Some(ComponentValType::Primitive(ty)) => ComponentDefinedType::Primitive(ty),
            _ => ComponentDefinedType::Own(9),
        },
    }
}

// A form over value types.
fn shape(
    alloc: Global,
    form: &str,
    values: &[Option<ComponentValType>],
) -> Result<ComponentDefinedType, OutOfMemory> {
    match form {
        "record" => Ok(ComponentDefinedType::Record(fields(alloc, values)?)),
        "variant" => Ok(ComponentDefinedType::Variant(cases(alloc, values)?)),
        "tuple" => Ok(ComponentDefinedType::Tuple(all(alloc, values)?)),
        "flags" => Ok(ComponentDefinedType::Flags(names(alloc, values.len())?)),
        "enum" => Ok(ComponentDefinedType::Enum(names(alloc, values.len())?)),
        _ => Ok(plain(form, at(values, 0), at(values, 1))),
    }
}

/// The type.
pub fn written(alloc: Global, text: &str) -> Result<ComponentDefinedType, OutOfMemory> {
    let (form, words) = text.split_once(' ').unwrap_or((text, ""));
    let values = values(alloc, words)?;
    shape(alloc, form, values.as_slice())
}
