//! Laws of the layout of types, of which each is a check of its definition.
ghost use Rattle.ir_tables.specs.Laws.{FourNumbersAndPointer, ByteAndWord, ArrayOfStructs, NoFields, ContainsItself, FirstItem, FieldOfThird, OneBack, NoSuchField};

/// `{ i32, i32, i32, i32, ptr }` takes 24 bytes.
pub fn four_numbers_and_pointer()
    ensures { FourNumbersAndPointer }
{}

/// `{ i8, i64 }` takes 16 bytes.
pub fn byte_and_word()
    ensures { ByteAndWord }
{}

/// `[3 x { i8, i16 }]` takes 12 bytes.
pub fn array_of_structs()
    ensures { ArrayOfStructs }
{}

/// A struct without fields takes no byte and stands anywhere.
pub fn no_fields()
    ensures { NoFields }
{}

/// A named type that contains itself has no layout.
pub fn contains_itself()
    ensures { ContainsItself }
{}

/// The indices `0, 0` into `[1 x ptr]` add nothing.
pub fn first_item()
    ensures { FirstItem }
{}

/// The indices `2, 1` into `{ i8, i64, i8 }` add 56: twice its 24 bytes, and the 8 in front of the field.
pub fn field_of_third()
    ensures { FieldOfThird }
{}

/// The index -1 of `i32` adds -4.
pub fn one_back()
    ensures { OneBack }
{}

/// An index out of a struct's fields has no offset.
pub fn no_such_field()
    ensures { NoSuchField }
{}
