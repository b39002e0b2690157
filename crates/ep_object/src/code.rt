//! Objects and images.

ghost use Rattle.std.specs.Prelude.{◌≡◌};

use ep_base::{Bytes, List, Name};

/// An instruction: its code in the table, its two fields, and the line of the source that it comes from.
#[derive(Clone, Copy, Drop)]
pub struct Instr {
    /// The code.
    pub op: u8,
    /// The first field, 0 where the instruction has none.
    pub a: i64,
    /// The second field, 0 where the instruction has none.
    pub b: u32,
    /// The line.
    pub line: u32,
}

/// Instructions, in order.
pub type Instrs = List<Instr>;

/// Byte strings.
pub type Texts = List<Bytes>;

/// Numbers.
pub type Numbers = List<u32>;

/// Words of the machine.
pub type Words = List<i64>;

/// An interface that a unit imports, with the interface file of its exporter.
#[derive(Drop)]
pub struct ObjectImport {
    /// The interface's name.
    pub interface: Name,
    /// The file.
    pub file: Bytes,
}

/// Imported interfaces, strictly rising by name.
pub type ObjectImports = List<ObjectImport>;

/// A routine or a slot of a unit: which of the two, the instruction says that names the reference.
#[derive(Drop)]
pub struct Reference {
    /// The unit's name.
    pub unit: Name,
    /// The number of the routine or of the slot in that unit.
    pub number: u32,
}

/// References of an object.
pub type References = List<Reference>;

/// A routine of an object.
#[derive(Clone, Copy, Drop)]
pub struct CodeRoutine {
    /// The place of its first instruction.
    pub entry: u32,
    /// How many arguments it takes.
    pub arguments: u32,
    /// How many slots its frame has.
    pub slots: u32,
}

/// Routines of an object.
pub type CodeRoutines = List<CodeRoutine>;

/// A type that is known before the run. A number below 7 in it is that of a required type, and 7 and a place
/// name an earlier one of the list.
#[derive(Drop)]
pub enum ConstantType {
    /// An ordinal type with its bounds.
    Ord(i64, i64),
    /// A set over a base with these bounds.
    Set(i64, i64),
    /// A string of a capacity.
    Str(i64),
    /// An array.
    Arr {
        /// Whether it is a fixed string.
        fixed: bool,
        /// The lower bound.
        lo: i64,
        /// The upper bound.
        hi: i64,
        /// The component's type.
        component: u32,
    },
    /// A record with its components' types.
    Rec(Numbers),
    /// A type with an initial state.
    Init(u32, Words),
}

/// Constant types.
pub type ConstantTypes = List<ConstantType>;

/// A unit that is compiled.
pub struct Object {
    /// Whether it is a module, and else a program.
    pub module: bool,
    /// The unit's name.
    pub name: Name,
    /// Its own interface file, empty for a program.
    pub interface: Bytes,
    /// The interfaces that it imports, but for the two standard ones.
    pub imports: ObjectImports,
    /// The routines and slots of any unit that its instructions name.
    pub references: References,
    /// Its texts.
    pub texts: Texts,
    /// Its constant types.
    pub constant_types: ConstantTypes,
    /// Its routines.
    pub routines: CodeRoutines,
    /// How many slots the unit's frame has.
    pub unit_slots: u32,
    /// The routine that starts the unit.
    pub start: u32,
    /// The routine that stops it.
    pub stop: u32,
    /// Its instructions.
    pub instructions: Instrs,
}

impl Object {
    /// Its texts, moved out of it. It takes no memory.
    pub fn into_texts(self) -> Texts
        ensures { result ≡ self.texts }
    {
        let Object {
            module: _,
            name: _,
            interface: _,
            imports: _,
            references: _,
            texts,
            constant_types: _,
            routines: _,
            unit_slots: _,
            start: _,
            stop: _,
            instructions: _,
        } = self;
        texts
    }
}

impl Drop for Object {
    fn drop(self) {
        let Object {
            module: _,
            name: _,
            interface: _,
            imports: _,
            references: _,
            texts: _,
            constant_types: _,
            routines: _,
            unit_slots: _,
            start: _,
            stop: _,
            instructions: _,
        } = self;
    }
}

/// A unit of an image.
#[derive(Drop)]
pub struct ImageUnit {
    /// The unit's name.
    pub name: Name,
    /// How many slots its frame has.
    pub slots: u32,
    /// The routine that starts it.
    pub start: u32,
    /// The routine that stops it.
    pub stop: u32,
}

/// Units of an image in the order in which they are started, the program last.
pub type ImageUnits = List<ImageUnit>;

/// A routine of an image.
#[derive(Clone, Copy, Drop)]
pub struct ImageRoutine {
    /// The place of its first instruction.
    pub entry: u32,
    /// The number of its unit.
    pub unit: u32,
    /// How many arguments it takes.
    pub arguments: u32,
    /// How many slots its frame has.
    pub slots: u32,
}

/// Routines of an image.
pub type ImageRoutines = List<ImageRoutine>;

/// A program that the machine can run.
pub struct Image {
    /// Its units.
    pub units: ImageUnits,
    /// Its routines.
    pub routines: ImageRoutines,
    /// Its texts.
    pub texts: Texts,
    /// Its constant types.
    pub constant_types: ConstantTypes,
    /// Its instructions.
    pub instructions: Instrs,
}

impl Drop for Image {
    fn drop(self) {
        let Image {
            units: _,
            routines: _,
            texts: _,
            constant_types: _,
            instructions: _,
        } = self;
    }
}
