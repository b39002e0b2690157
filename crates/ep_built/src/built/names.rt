//! The names whose uses are built or are not, in the order of the lists of specs/Forms.antt.

ghost use Rattle.std.specs.Prelude.{◌≡◌, map};
ghost use Rattle.ep_built.specs.Built.{is_among, is_later, writes, program_parameters};

use ep_base::Name;

/// The required functions (ISO 10206, 6.7.6) that are not built.
const LATER_FUNCTIONS: [&[u8]; 13] = [
    b"length", b"index", b"substr", b"trim", b"eq", b"ne", b"lt", b"gt", b"le", b"ge", b"eof",
    b"eoln", b"binding",
];

/// The required procedures (ISO 10206, 6.7.5) that are not built.
const LATER_PROCEDURES: [&[u8]; 11] = [
    b"read",
    b"readln",
    b"readstr",
    b"writestr",
    b"new",
    b"dispose",
    b"reset",
    b"rewrite",
    b"extend",
    b"bind",
    b"unbind",
];

/// The required types (ISO 10206, 6.4) that are not built.
const LATER_TYPES: [&[u8]; 3] = [b"text", b"string", b"bindingtype"];

/// The required procedures that write their arguments.
const WRITING_PROCEDURES: [&[u8]; 2] = [b"write", b"writeln"];

/// The parameters that a program may have.
const PROGRAM_PARAMETERS: [&[u8]; 2] = [b"input", b"output"];

/// Whether a name is one of these.
fn is_among(names: &[&[u8]], name: &Name) -> bool
    ensures { result ≡ is_among (map (λ other. other.now) names.now) name.now }
{
    for other in names {
        if name.bytes() == *other {
            return true;
        }
    }
    false
}

/// Whether a name is not built, whatever the text declares by it.
#[tactic(auto, unfolding(crate::specs::Forms::later_functions, crate::specs::Forms::later_procedures, crate::specs::Forms::later_types))]
pub(super) fn is_later(name: &Name) -> bool
    ensures { result ≡ is_later name.now }
{
    is_among(&LATER_FUNCTIONS, name)
        || is_among(&LATER_PROCEDURES, name)
        || is_among(&LATER_TYPES, name)
}

/// Whether a call writes its arguments.
#[tactic(auto, unfolding(crate::specs::Forms::writing_procedures))]
pub(super) fn writes(name: &Name) -> bool
    ensures { result ≡ writes name.now }
{
    is_among(&WRITING_PROCEDURES, name)
}

#[tactic(auto, unfolding(crate::specs::Forms::program_parameters))]
pub(super) fn is_program_parameter(name: &Name) -> bool
    ensures { result ≡ is_among program_parameters name.now }
{
    is_among(&PROGRAM_PARAMETERS, name)
}
