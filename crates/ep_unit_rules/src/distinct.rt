//! Lists in which no name stands twice, and in which a name is found without a walk over them.

ghost use Rattle.std.specs.Prelude.{◌≡◌, [], ◌∷◌, ◌++◌, false, IfOk, map};
ghost use Rattle.std.specs.List.{list_any};
ghost use Rattle.std.specs.Str.{bytes_eq};
ghost use Rattle.ep_unit_rules.specs.Answers.{field_in};
ghost use Rattle.ep_unit_rules.specs.Records.{has_field};
ghost use Rattle.ep_unit_rules.specs.Formals.{is_parameter};

use crate::records::WrittenField;
use ep_base::{List, Name, NoMemory};
use ep_scope::{FormalParameter, FormalParameters};
use indexmap::IndexSet;
use std::alloc::Global;
use std::marker::Model;

/// Names, in the order in which they came.
pub(crate) struct DistinctNames {
    names: IndexSet<Vec<u8>>,
}

impl Model for DistinctNames {
    ghost use Rattle.std.specs.Prelude.{List, ℕ, map};

    ghost Value = { List (List ℕ) };

    ghost view = { λ d. map (λ k. k.items) d.names.keys };
}

impl Drop for DistinctNames {
    fn drop(self) {
        let DistinctNames { names: _ } = self;
    }
}

impl DistinctNames {
    /// No names. It takes no memory.
    fn new(alloc: Global) -> DistinctNames
        ensures { result ≡ [] }
    {
        DistinctNames {
            names: IndexSet::new(alloc),
        }
    }

    /// Whether the name is there.
    fn has(&self, name: &Name) -> bool
        ensures { result ≡ list_any (bytes_eq name.now) self.now }
    {
        self.names.contains(name.bytes())
    }

    /// The names with one more at the end.
    fn with(self, alloc: Global, name: &Name) -> Result<DistinctNames, NoMemory>
        requires { list_any (bytes_eq name.now) self ≡ false }
        ensures { IfOk result (λ all. all ≡ self ++ name.now ∷ []) }
    {
        let DistinctNames { mut names } = self;
        let key = Vec::from_slice(alloc, name.bytes())?;
        names.insert(key)?;
        Ok(DistinctNames { names })
    }
}

/// Formal parameters, in order.
pub struct DistinctParameters {
    parameters: FormalParameters,
    names: DistinctNames,
}

impl Model for DistinctParameters {
    ghost use Rattle.std.specs.Prelude.{List, ◌≡◌, map};
    ghost use Rattle.ep_scope.specs.declared.parameter.FormalParameter.{FormalParameter};

    ghost Value = { List FormalParameter };

    ghost view = { λ d. d.parameters };

    ghost invariant = { λ d. d.names ≡ map (λ p. p.name) d.parameters };
}

impl Drop for DistinctParameters {
    fn drop(self) {
        let DistinctParameters {
            parameters: _,
            names: _,
        } = self;
    }
}

impl DistinctParameters {
    /// No parameters. It takes no memory.
    pub fn new(alloc: Global) -> DistinctParameters
        ensures { result ≡ [] }
    {
        DistinctParameters {
            parameters: List::new(alloc),
            names: DistinctNames::new(alloc),
        }
    }

    /// Whether a parameter has the name.
    pub fn has(&self, name: &Name) -> bool
        ensures { result ≡ is_parameter name.now self.now }
    {
        self.names.has(name)
    }

    /// The parameters with one more at the end.
    pub fn with(
        self,
        alloc: Global,
        parameter: FormalParameter,
    ) -> Result<DistinctParameters, NoMemory>
        requires { is_parameter parameter.name self ≡ false }
        ensures { IfOk result (λ all. all ≡ self ++ parameter ∷ []) }
    {
        let DistinctParameters {
            mut parameters,
            names,
        } = self;
        let names = names.with(alloc, &parameter.name)?;
        parameters.push(parameter)?;
        Ok(DistinctParameters { parameters, names })
    }

    /// The parameters alone.
    pub fn into_parameters(self) -> FormalParameters
        ensures { result ≡ self }
    {
        let DistinctParameters {
            parameters,
            names: _,
        } = self;
        parameters
    }
}

/// Fields of a record or of a variant that are written, in order.
pub struct WrittenFields {
    fields: List<WrittenField>,
    names: DistinctNames,
}

impl Model for WrittenFields {
    ghost use Rattle.std.specs.Prelude.{List, ◌≡◌, map};
    ghost use Rattle.ep_unit_rules.specs.declared.records.WrittenField.{WrittenField};

    ghost Value = { List WrittenField };

    ghost view = { λ d. d.fields };

    ghost invariant = { λ d. d.names ≡ map (λ f. f.name) d.fields };
}

impl Drop for WrittenFields {
    fn drop(self) {
        let WrittenFields {
            fields: _,
            names: _,
        } = self;
    }
}

impl WrittenFields {
    /// No fields. It takes no memory.
    pub fn new(alloc: Global) -> WrittenFields
        ensures { result ≡ [] }
    {
        WrittenFields {
            fields: List::new(alloc),
            names: DistinctNames::new(alloc),
        }
    }

    /// The fields. It takes no memory.
    pub fn items(&self) -> &[WrittenField]
        ensures { result.now ≡ self.now }
    {
        self.fields.items()
    }

    /// Whether a field has the name.
    pub fn has(&self, name: &Name) -> bool
        ensures { result ≡ has_field (map field_in self.now) name.now }
    {
        self.names.has(name)
    }

    /// The fields with one more at the end.
    pub fn with(self, alloc: Global, field: WrittenField) -> Result<WrittenFields, NoMemory>
        requires { has_field (map field_in self) field.name ≡ false }
        ensures { IfOk result (λ all. all ≡ self ++ field ∷ []) }
    {
        let WrittenFields { mut fields, names } = self;
        let names = names.with(alloc, &field.name)?;
        fields.push(field)?;
        Ok(WrittenFields { fields, names })
    }
}
