//! The static rules, by their numbers.

/// A name is declared or imported twice in one scope, one list of fields or one list of formals.
pub const TWICE: u32 = 1;
/// A name is used where it is not declared.
pub const UNDECLARED: u32 = 2;
/// A name stands for another kind of thing than its place asks for.
pub const OTHER_THING: u32 = 3;
/// An interface is not exported by exactly one of the given headings.
pub const INTERFACE: u32 = 4;
/// An interface does not have the constituent.
pub const CONSTITUENT: u32 = 5;
/// An import names a constituent twice.
pub const IMPORTED_TWICE: u32 = 6;
/// A routine of the heading, or one that is declared `forward`, has no body.
pub const NO_BODY: u32 = 7;
/// A heading is repeated otherwise than it was, or a routine has a second body.
pub const REPEATED_HEADING: u32 = 8;
/// The domain of a pointer is defined neither before its type part nor in it.
pub const DOMAIN: u32 = 9;
/// An export names what its heading does not define.
pub const NOT_IN_HEADING: u32 = 10;
/// An interface is exported twice, has a name twice, or is named as a standard one.
pub const EXPORTED_TWICE: u32 = 11;
/// A range of exports is not two constants of one enumeration in rising order.
pub const EXPORT_RANGE: u32 = 12;
/// `protected` stands in an export before something else than a variable.
pub const PROTECTED_EXPORT: u32 = 13;
/// Not exactly one heading of its name is given for an implementation.
pub const HEADING: u32 = 14;
/// A parameter of a program or a module may not be one.
pub const PARAMETER: u32 = 15;
/// `input` or `output` is used and is neither a parameter nor imported.
pub const STANDARD_FILE: u32 = 16;
/// A bound outside of a schema, or a discriminant value that has to be constant, is not.
pub const BOUND_CONSTANT: u32 = 17;
/// A bound in a schema has a part that may not stand there.
pub const SCHEMA_BOUND: u32 = 18;
/// A constant lower bound is above the upper one.
pub const EMPTY_RANGE: u32 = 19;
/// An ordinal type is needed.
pub const ORDINAL: u32 = 20;
/// The base of a set goes beyond 0..255.
pub const SET_BASE: u32 = 21;
/// The two bounds of a subrange have different hosts, or a capacity is not an integer.
pub const HOSTS: u32 = 22;
/// Discriminant values do not fit the schema in number or host.
pub const DISCRIMINANTS: u32 = 23;
/// A schema stands without a tuple where a type is needed.
pub const SCHEMA_ALONE: u32 = 24;
/// A type with a text file in it is used as no such type may be.
pub const FILE_TYPE: u32 = 25;
/// The labels of variants do not fit the selector, stand twice or leave values out.
pub const VARIANT_LABELS: u32 = 26;
/// An initial state does not fit its type, or is not constant.
pub const INITIAL_STATE: u32 = 27;
/// A type has too many nodes.
pub const LARGE_TYPE: u32 = 28;
/// `bindable` stands before another type than that of text files.
pub const BINDABLE: u32 = 29;
/// `type of` names no variable or formal, or a formal of its own list.
pub const TYPE_OF: u32 = 30;
/// `restricted` stands before what is no type.
pub const RESTRICTED_TYPE: u32 = 31;
/// An operator does not take operands of these types.
pub const OPERANDS: u32 = 32;
/// A constant expression is not constant, or would be an error.
pub const CONSTANT: u32 = 33;
/// A variable is needed.
pub const VARIABLE_NEEDED: u32 = 34;
/// An index is given to what has none, or has another host than it asks for.
pub const INDEX: u32 = 35;
/// There is no such field or discriminant.
pub const FIELD: u32 = 36;
/// There are too few or too many arguments.
pub const ARGUMENTS: u32 = 37;
/// A value cannot be assigned to the type.
pub const ASSIGNMENT: u32 = 38;
/// A variable argument has another type or schema than its formal.
pub const VARIABLE_ARGUMENT: u32 = 39;
/// A variable argument is a tag field, a discriminant or a character of a string.
pub const ARGUMENT_COMPONENT: u32 = 40;
/// A procedure is used as a function, or a function as a statement.
pub const PROCEDURE: u32 = 41;
/// A structured value does not fit its type, or leaves out or doubles a component.
pub const STRUCTURED_VALUE: u32 = 42;
/// A width is given where nothing is written, or is not an integer.
pub const WIDTH: u32 = 43;
/// Values of the type are neither read nor written.
pub const WRITTEN_TYPE: u32 = 44;
/// A restricted value is used as it may not be.
pub const RESTRICTED_VALUE: u32 = 45;
/// What is protected is threatened.
pub const PROTECTED: u32 = 46;
/// A constant or a discriminant is threatened.
pub const CONSTANT_THREATENED: u32 = 47;
/// A control variable is threatened in its loop, or in a routine of its block.
pub const CONTROL_THREATENED: u32 = 48;
/// A control variable is not declared in the nearest block.
pub const CONTROL_VARIABLE: u32 = 49;
/// The name of a function is assigned to where it may not be.
pub const FUNCTION_ASSIGNED: u32 = 50;
/// A function never assigns its result.
pub const NO_RESULT: u32 = 51;
/// The labels of a `case` do not fit its selector, are not constant, or overlap.
pub const CASE_LABELS: u32 = 52;
/// `with` names something else than a record variable.
pub const WITH_RECORD: u32 = 53;
/// `new` or `dispose` is not given a pointer variable and the values that its domain asks for.
pub const POINTER_ARGUMENT: u32 = 54;
/// A condition is not Boolean.
pub const CONDITION: u32 = 55;
/// A variable is bound, unbound or asked for its binding that is not bindable.
pub const NOT_BINDABLE: u32 = 56;
/// An argument of a required function or procedure has another type than it needs.
pub const REQUIRED_ARGUMENT: u32 = 57;
/// An expression or a place is too many typed nodes deep.
pub const TOO_DEEP: u32 = 58;
