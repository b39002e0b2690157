//! The components of a source text (ISO 10206, 6.11 and 6.12).

use crate::declaration::{Constants, RoutineHeading, Types, Variables};
use crate::routine::BlockPart;
use crate::statement::{Compound, Statement};
use ep_base::{Boxed, Line, List, Name, Names};

/// `component = program "." | module "."`
pub enum Component {
    /// A program.
    Program(Program),
    /// The heading of a module, marked `interface`.
    Heading(Heading),
    /// The block of a module, marked `implementation`.
    Block(Implementation),
    /// A module's heading and block together.
    Module(Module),
}

impl Drop for Component {
    fn drop(self) {
        match self {
            Component::Program(_) => {}
            Component::Heading(_) => {}
            Component::Block(_) => {}
            Component::Module(_) => {}
        }
    }
}

/// `program = "program" id [ "(" ids ")" ] ";" imports parts compound`; without parentheses there are no
/// parameters.
pub struct Program {
    pub line: Line,
    pub name: Name,
    pub parameters: Names,
    pub imports: List<Import>,
    pub parts: List<BlockPart>,
    pub body: Compound,
}

impl Drop for Program {
    fn drop(self) {
        let Program {
            line: _,
            name: _,
            parameters: _,
            imports: _,
            parts: _,
            body: _,
        } = self;
    }
}

/// `head ";" modblock`
pub struct Module {
    pub line: Line,
    pub heading: Heading,
    pub block: Block,
}

impl Drop for Module {
    fn drop(self) {
        let Module {
            line: _,
            heading: _,
            block: _,
        } = self;
    }
}

/// `"module" id "implementation" ";" modblock`
pub struct Implementation {
    pub line: Line,
    pub name: Name,
    pub block: Block,
}

impl Drop for Implementation {
    fn drop(self) {
        let Implementation {
            line: _,
            name: _,
            block: _,
        } = self;
    }
}

/// `head = "module" id [ "(" ids ")" ] ";" hparts`, and `ihead`, which is the same with `interface` after the
/// name. `hparts = exports imports { consts | types | vars | rhead ";" } "end"`.
pub struct Heading {
    pub line: Line,
    pub name: Name,
    pub parameters: Names,
    pub exports: List<Export>,
    pub imports: List<Import>,
    pub parts: List<HeadingPart>,
}

impl Drop for Heading {
    fn drop(self) {
        let Heading {
            line: _,
            name: _,
            parameters: _,
            exports: _,
            imports: _,
            parts: _,
        } = self;
    }
}

/// One of `{ consts | types | vars | rhead ";" }`
pub enum HeadingPart {
    /// `consts`
    Constants(Constants),
    /// `types`
    Types(Types),
    /// `vars`
    Variables(Variables),
    /// `rhead ";"`
    Routine(RoutineHeading),
}

impl Drop for HeadingPart {
    fn drop(self) {
        match self {
            HeadingPart::Constants(_) => {}
            HeadingPart::Types(_) => {}
            HeadingPart::Variables(_) => {}
            HeadingPart::Routine(_) => {}
        }
    }
}

/// `modblock = imports parts [ "to" "begin" "do" stmt ";" ] [ "to" "end" "do" stmt ";" ] "end"`
pub struct Block {
    pub line: Line,
    pub imports: List<Import>,
    pub parts: List<BlockPart>,
    pub initialization: Option<Boxed<Statement>>,
    pub finalization: Option<Boxed<Statement>>,
}

impl Drop for Block {
    fn drop(self) {
        let Block {
            line: _,
            imports: _,
            parts: _,
            initialization: _,
            finalization: _,
        } = self;
    }
}

/// `export = id "=" "(" eitem { "," eitem } ")"`
pub struct Export {
    pub line: Line,
    pub name: Name,
    pub items: List<ExportItem>,
}

impl Drop for Export {
    fn drop(self) {
        let Export {
            line: _,
            name: _,
            items: _,
        } = self;
    }
}

/// `eitem = [ "protected" ] id [ "=>" id ] | id ".." id`
pub enum ExportItem {
    /// `[ "protected" ] id [ "=>" id ]`
    Constituent(Line, bool, Name, Option<Name>),
    /// `id ".." id`
    Range(Line, Name, Name),
}

impl Drop for ExportItem {
    fn drop(self) {
        match self {
            ExportItem::Constituent(_, _, _, _) => {}
            ExportItem::Range(_, _, _) => {}
        }
    }
}

/// `import = id [ "qualified" ] [ [ "only" ] "(" iitem { "," iitem } ")" ]`; without parentheses there are no
/// items, and `only` is false.
pub struct Import {
    pub line: Line,
    pub interface: Name,
    pub qualified: bool,
    pub only: bool,
    pub items: List<ImportItem>,
}

impl Drop for Import {
    fn drop(self) {
        let Import {
            line: _,
            interface: _,
            qualified: _,
            only: _,
            items: _,
        } = self;
    }
}

/// `iitem = id [ "=>" id ]`
pub struct ImportItem {
    pub line: Line,
    pub name: Name,
    pub renamed: Option<Name>,
}

impl Drop for ImportItem {
    fn drop(self) {
        let ImportItem {
            line: _,
            name: _,
            renamed: _,
        } = self;
    }
}
