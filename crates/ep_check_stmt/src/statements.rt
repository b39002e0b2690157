//! Statements, item by item.

ghost use Rattle.std.specs.Prelude.{◌≡◌, ◌∷◌, None, map};
ghost use Rattle.std.specs.Option.{option_map};
ghost use Rattle.ep_built.specs.Built.{access_unbuilt, arm_unbuilt, call_unbuilt, component_value_unbuilt, compound_unbuilt, expression_unbuilt, first_in, statement_unbuilt, written_unbuilt};
ghost use Rattle.ep_tree.specs.declared.expression.Access.{out-Access};
ghost use Rattle.ep_tree.specs.declared.statement.Otherwise.{out-Otherwise};
ghost use Rattle.ep_typed.specs.Auxiliaries.{with_variables, with_variables_in};
ghost use Rattle.ep_typed.specs.Trees as tree;
ghost use Rattle.ep_typed.specs.Trees.{Arms, Stmt};
ghost use Rattle.ep_typed.specs.Viewed.{arm_of, expr_of, other_of, stmt_of};
ghost use Rattle.ep_check_expr.specs.Expressions.{judged};
ghost use Rattle.ep_rules.specs.Judgements.{both};
ghost use Rattle.ep_check_stmt.specs.Contexts.{context_of};
ghost use Rattle.ep_stmt_rules.specs.Answers.{AnswersForm, AnswersRow, arms_of, counted_of, numbered, opened_of, stmts_of, target_of};
ghost use Rattle.ep_threats.specs.Variables.{entire_of};
ghost use Rattle.ep_stmt_rules.specs.Statements as spec;
ghost use Rattle.ep_stmt_rules.specs.Statements.{Judgement, arm_judged, arm_row, arms_in_order, assigned, compound_judged, compound_under, condition_judged, control_judged, declared_called, for_in_judged, file_given, for_judged, formed, in_order, name_called, none_opened, own_called, record_opened, records_opened, required_called, statement_judged, target_judged, value_judged, with_judged, write_judged};

use ep_base::{Boxed, Line, List, Name};
use ep_check_expr::{asked_by, typed_arguments, typed_expression, typed_value};
use ep_rules::{Refusal, callee_at, undeclared};
use ep_scope::{
    Declaration, Declared, FormalParameter, Host, Meaning, Procedure, Required, StandardFiles,
    View, depth_in, meaning_of, rule,
};
use ep_stmt_rules::{
    Admission, Counted, FunctionResult, Locals, Opened, Row, Target, arm_form, assigned,
    behind_arm, behind_arms, behind_statement, behind_then, call_arguments, case_form,
    component_rule, compound_form, control_named, counted_by, denoted, falls_by, for_form,
    for_in_form, head, identifier, if_form, is_threatened_in, item_at, member_head, named_record,
    named_target, no_otherwise, one_more, otherwise_form, own_ranges, refused_at, repeat_form,
    selector, tested, unless_head_threatens, unless_member_threatens, unless_places_threaten,
    unless_statement_threatens, unless_value_threatens, while_form, with_form, write_to,
};
use ep_threats::{Entire, Routines};
use ep_tree::{
    Access, Argument, Arm, ComponentValue, Compound, Direction, Expression, Otherwise, Statement,
};
use ep_typed::{CaseArm, CaseArms, StandardFile, TypedExpr, TypedStmt, TypedStmts};
use std::alloc::Global;

/// What the statements of a block know.
#[derive(Clone, Copy)]
pub struct Context<'a> {
    /// Where memory is taken.
    pub alloc: Global,
    /// The unit.
    pub unit: &'a Name,
    /// The scopes, the innermost first.
    pub scopes: &'a View<'a>,
    /// The standard files that are parameters or imported.
    pub files: StandardFiles,
    /// The functions in whose blocks it is and whose results have no names, the innermost first.
    pub results: &'a [FunctionResult],
    /// The variables of the block.
    pub locals: Locals<'a>,
    /// The number of the auxiliary variable of `for` statements over members among them (ISO 10206, 6.9.3.9.3).
    pub members: u32,
    /// The routines of the unit, with the headings that it is given.
    pub routines: &'a Routines<'a>,
    /// The number of the variable that stands for the next record which a `with` opens (ISO 10206, 6.9.3.10).
    pub withs: u32,
}

impl<'a> Context<'a> {
    /// The statements of a block, which stand in no `for`.
    pub fn compound(&self, c: &Compound) -> Row<TypedStmts>
        requires { compound_unbuilt c.now ≡ None }
        ensures { AnswersRow stmts_of result (compound_judged (context_of self.now) c.now) }
    {
        self.compound_within(c, &[])
    }

    /// The statements of a compound statement, inside of the `for` statements that have these control variables.
    #[cycle(statements)]
    fn compound_within(&self, c: &Compound, controls: &[Entire<'a>]) -> Row<TypedStmts>
        requires { compound_unbuilt c.now ≡ None }
        ensures { AnswersRow stmts_of result
            (compound_under c.now (context_of self.now) (map entire_of controls.now)) }
    {
        self.statements(c.statements.items(), controls)
    }

    /// Statements in order.
    #[cycle(statements)]
    fn statements(&self, all: &[Statement], controls: &[Entire<'a>]) -> Row<TypedStmts>
        requires { first_in (map statement_unbuilt all.now) ≡ None }
        ensures { AnswersRow stmts_of result
            (in_order (map statement_judged all.now) (context_of self.now) (map entire_of controls.now)) }
    {
        let mut found = List::new(self.alloc);
        let mut waits = None;
        let mut withs = self.withs;
        for s in all {
            let one = self.numbered(withs).statement(s, controls)?;
            withs = behind_statement(withs, &one)?;
            match one {
                Admission::Passes(form) => found.push(form.into_inner())?,
                Admission::Waits(line) => waits = waits.or(Some(line)),
            }
        }
        match waits {
            None => Ok(Admission::Passes(found)),
            Some(line) => Ok(Admission::Waits(line)),
        }
    }

    #[cycle(statements)]
    #[tactic(auto, using(ep_stmt_rules::proofs::public::judged::Rounds::rest_of))]
    fn statement(&self, s: &Statement, controls: &[Entire<'a>]) -> Row<Boxed<TypedStmt>>
        requires { statement_unbuilt s.now ≡ None }
        ensures { AnswersRow stmt_of result
            (statement_judged s.now (context_of self.now) (map entire_of controls.now)) }
    {
        match s {
            Statement::Empty(_) => self.empty(),
            Statement::Assignment(line, access, value) => {
                let form = self.assignment(*line, access, value);
                item_at(
                    *line,
                    unless_statement_threatens(self.routines, controls, form),
                )
            }
            Statement::Call(line, access) => {
                let form = self.call(*line, access);
                item_at(
                    *line,
                    unless_statement_threatens(self.routines, controls, form),
                )
            }
            Statement::Compound(c) => {
                compound_form(self.alloc, self.compound_within(c, controls))
            }
            Statement::If(line, e, then, other) => {
                let first = self.statement(then.get(), controls);
                let second = match other {
                    None => self.empty(),
                    Some(other) => self.alternative(other.get(), &first, controls),
                };
                if_form(
                    self.alloc,
                    *line,
                    self.condition(*line, e.get(), controls),
                    first,
                    second,
                )
            }
            Statement::Case(line, e, arms, other) => {
                let selector = match selector(self.alloc, self.scopes, e.get(), arms.items()) {
                    Ok(selector) => selector,
                    Err(refusal) => return Err(refused_at(*line, refusal)),
                };
                let inner = self.arms(*line, selector.host, arms.items(), controls);
                let rest = match other {
                    None => no_otherwise(),
                    Some(other) => self.otherwise(other, &inner, controls),
                };
                let form = unless_value_threatens(
                    self.routines,
                    controls,
                    Ok(selector.into_form()),
                );
                case_form(self.alloc, *line, item_at(*line, form), inner, rest)
            }
            Statement::While(line, e, body) => {
                let inner = self.statement(body.get(), controls);
                while_form(
                    self.alloc,
                    *line,
                    self.condition(*line, e.get(), controls),
                    inner,
                )
            }
            Statement::Repeat(line, all, e) => {
                let inner = self.statements(all.items(), controls);
                repeat_form(
                    self.alloc,
                    *line,
                    self.condition(*line, e.get(), controls),
                    inner,
                )
            }
            Statement::For(line, name, start, direction, end, body) => self.counting(
                body.get(),
                *line,
                name,
                start.get(),
                *direction,
                end.get(),
                controls,
            ),
            Statement::ForIn(line, name, set, body) => {
                self.over_members(body.get(), *line, name, set.get(), controls)
            }
            Statement::With(line, accesses, body) => {
                self.with_records(body.get(), *line, accesses.items(), controls)
            }
        }
    }

    /// The same, where the variable of the next `with` has this number.
    fn numbered(&self, withs: u32) -> Context<'a>
        ensures { context_of result ≡ numbered (context_of self.now) withs }
    {
        Context {
            alloc: self.alloc,
            unit: self.unit,
            scopes: self.scopes,
            files: self.files,
            results: self.results,
            locals: self.locals,
            members: self.members,
            routines: self.routines,
            withs,
        }
    }

    /// A `with` statement with this body, of which all that stands before `do` is one item.
    #[cycle(statements)]
    fn with_records(
        &self,
        body: &Statement,
        line: Line,
        accesses: &[Access],
        controls: &[Entire<'a>],
    ) -> Row<Boxed<TypedStmt>>
        requires body { statement_unbuilt body.now ≡ None }
        requires accesses { first_in (map access_unbuilt accesses.now) ≡ None }
        ensures { AnswersRow stmt_of result (with_judged (context_of self.now) (map entire_of controls.now) line
            (records_opened (context_of self.now) accesses.now (none_opened (context_of self.now)))
            (statement_judged body.now)) }
    {
        let opened = match self.opened(accesses) {
            Ok(opened) => opened,
            Err(refusal) => return Err(refused_at(line, refusal)),
        };
        let inner = self.statement_inside(body, &opened, controls);
        let heads = unless_places_threaten(self.routines, controls, opened.into_heads());
        with_form(self.alloc, line, item_at(line, heads), inner)
    }

    /// The body of a `with` that has opened these records.
    #[cycle(statements)]
    fn statement_inside(
        &self,
        body: &Statement,
        opened: &Opened<'a>,
        controls: &[Entire<'a>],
    ) -> Row<Boxed<TypedStmt>>
        requires { statement_unbuilt body.now ≡ None }
        ensures { AnswersRow stmt_of result (statement_judged body.now
            (spec.inside (context_of self.now) (opened_of opened.now)) (map entire_of controls.now)) }
    {
        let scopes = opened.inner.view();
        let context = Context {
            alloc: self.alloc,
            unit: self.unit,
            scopes: &scopes,
            files: self.files,
            results: self.results,
            locals: self.locals,
            members: self.members,
            routines: self.routines,
            withs: opened.withs,
        };
        context.statement(body, &*controls)
    }

    /// The `else` part of an `if`, behind its `then` part.
    #[cycle(statements)]
    fn alternative(
        &self,
        other: &Statement,
        then: &Row<Boxed<TypedStmt>>,
        controls: &[Entire<'a>],
    ) -> Row<Boxed<TypedStmt>>
        requires { statement_unbuilt other.now ≡ None }
        ensures { (x : Judgement Stmt) → AnswersRow stmt_of then.now x → AnswersRow stmt_of result
            (statement_judged other.now (spec.behind with_variables (context_of self.now) x)
            (map entire_of controls.now)) }
    {
        let withs = behind_then(self.withs, then)?;
        self.numbered(withs).statement(other, controls)
    }

    /// The `otherwise` part of a `case`, behind its arms.
    #[cycle(statements)]
    fn otherwise(
        &self,
        other: &Otherwise,
        arms: &Row<CaseArms>,
        controls: &[Entire<'a>],
    ) -> Row<Option<TypedStmts>>
        requires { first_in (map statement_unbuilt (out-Otherwise other.now).statements) ≡ None }
        ensures { (x : Judgement Arms) → AnswersRow arms_of arms.now x → AnswersRow other_of result
            (formed tree.otherwise_do (in_order (map statement_judged (out-Otherwise other.now).statements)
            (spec.behind with_variables_in (context_of self.now) x) (map entire_of controls.now))) }
    {
        let withs = behind_arms(self.withs, arms)?;
        let context = self.numbered(withs);
        otherwise_form(context.statements(other.statements.items(), controls))
    }

    /// A `for` statement with this body, control variable and bounds.
    #[cycle(statements)]
    fn counting(
        &self,
        body: &Statement,
        line: Line,
        name: &Name,
        start: &Expression,
        direction: Direction,
        end: &Expression,
        controls: &[Entire<'a>],
    ) -> Row<Boxed<TypedStmt>>
        requires body { statement_unbuilt body.now ≡ None }
        requires start { expression_unbuilt start.now ≡ None }
        requires end { expression_unbuilt end.now ≡ None }
        ensures { AnswersRow stmt_of result (for_judged (context_of self.now) (map entire_of controls.now) line
            (control_judged (context_of self.now) name.now) (spec.falls_by direction) start.now end.now
            (statement_judged body.now)) }
    {
        let control = match self.control(name) {
            Ok(control) => control,
            Err(refusal) => return Err(refused_at(line, refusal)),
        };
        let inner = self.statement_under(body, control.variable, controls);
        let head = head(
            self.alloc,
            self.scopes,
            self.locals,
            control,
            falls_by(direction),
            start,
            end,
        );
        let form = unless_head_threatens(self.routines, controls, head);
        for_form(self.alloc, line, item_at(line, form), inner)
    }

    /// A `for` statement over the members of a set with this body and control variable.
    #[cycle(statements)]
    fn over_members(
        &self,
        body: &Statement,
        line: Line,
        name: &Name,
        set: &Expression,
        controls: &[Entire<'a>],
    ) -> Row<Boxed<TypedStmt>>
        requires body { statement_unbuilt body.now ≡ None }
        requires set { expression_unbuilt set.now ≡ None }
        ensures { AnswersRow stmt_of result (for_in_judged (context_of self.now) (map entire_of controls.now) line
            (control_judged (context_of self.now) name.now) set.now (statement_judged body.now)) }
    {
        let control = match self.control(name) {
            Ok(control) => control,
            Err(refusal) => return Err(refused_at(line, refusal)),
        };
        let inner = self.statement_under(body, control.variable, controls);
        let head = member_head(
            self.alloc,
            self.scopes,
            self.locals,
            self.members,
            control,
            set,
        );
        let form = unless_member_threatens(self.routines, controls, head);
        for_in_form(self.alloc, line, item_at(line, form), inner)
    }

    /// The body of a `for` with this control variable.
    #[cycle(statements)]
    fn statement_under(
        &self,
        body: &Statement,
        control: Entire<'a>,
        controls: &[Entire<'a>],
    ) -> Row<Boxed<TypedStmt>>
        requires { statement_unbuilt body.now ≡ None }
        ensures { AnswersRow stmt_of result (statement_judged body.now (context_of self.now)
            (entire_of control.entry ∷ map entire_of controls.now)) }
    {
        let all = one_more(self.alloc, control, controls)?;
        self.statement(body, all.items())
    }

    /// The arms of a `case` on this line, whose selector has this host, in order.
    #[cycle(statements)]
    fn arms(&self, line: Line, host: Host, all: &[Arm], controls: &[Entire<'a>]) -> Row<CaseArms>
        requires { first_in (map arm_unbuilt all.now) ≡ None }
        ensures { AnswersRow arms_of result (arms_in_order line host (map arm_judged all.now)
            (context_of self.now) (map entire_of controls.now)) }
    {
        let mut found = List::new(self.alloc);
        let mut waits = None;
        let mut withs = self.withs;
        for a in all {
            let one = self.numbered(withs).arm(line, host, a, controls)?;
            withs = behind_arm(withs, &one)?;
            match one {
                Admission::Passes(form) => found.push(form.into_inner())?,
                Admission::Waits(line) => waits = waits.or(Some(line)),
            }
        }
        match waits {
            None => Ok(Admission::Passes(found)),
            Some(line) => Ok(Admission::Waits(line)),
        }
    }

    #[cycle(statements)]
    fn arm(&self, line: Line, host: Host, a: &Arm, controls: &[Entire<'a>]) -> Row<Boxed<CaseArm>>
        requires { arm_unbuilt a.now ≡ None }
        ensures { AnswersRow arm_of result (arm_row line host (arm_judged a.now) (context_of self.now)
            (map entire_of controls.now)) }
    {
        let body = self.statement(a.body.get(), controls);
        let ranges = item_at(
            line,
            own_ranges(self.alloc, self.scopes, host, a.labels.items()),
        );
        arm_form(self.alloc, ranges, body)
    }

    /// The empty statement.
    fn empty(&self) -> Row<Boxed<TypedStmt>>
        ensures { AnswersRow stmt_of result (spec.Passes tree.Empty) }
    {
        let form = Boxed::new(self.alloc, TypedStmt::Empty)?;
        Ok(Admission::Passes(form))
    }

    /// The condition of a statement on this line.
    fn condition(
        &self,
        line: Line,
        e: &Expression,
        controls: &[Entire<'a>],
    ) -> Row<Boxed<TypedExpr>>
        requires { expression_unbuilt e.now ≡ None }
        ensures { AnswersRow expr_of result
            (condition_judged (context_of self.now) (map entire_of controls.now) line e.now) }
    {
        item_at(
            line,
            unless_value_threatens(self.routines, controls, self.tested(e)),
        )
    }

    fn tested(&self, e: &Expression) -> Result<Option<Boxed<TypedExpr>>, Refusal>
        requires { expression_unbuilt e.now ≡ None }
        ensures { AnswersForm (option_map expr_of) result (spec.condition (judged self.now.scopes.now e.now)) }
    {
        let value = typed_expression(self.alloc, e, self.scopes)?;
        tested(value)
    }

    /// `access ":=" cvalue`
    fn assignment(
        &self,
        line: Line,
        access: &Access,
        value: &ComponentValue,
    ) -> Result<Option<Boxed<TypedStmt>>, Refusal>
        requires target { access_unbuilt access.now ≡ None }
        requires value { component_value_unbuilt value.now ≡ None }
        ensures { AnswersForm (option_map stmt_of) result (both (assigned (context_of self.now).locals line)
            (target_judged (context_of self.now) access.now)
            (value_judged (context_of self.now) access.now value.now)) }
    {
        let target = self.target(access)?;
        let asked = asked_by(target.kind);
        let value = typed_value(self.alloc, value, asked, self.scopes)?;
        assigned(self.alloc, self.locals, line, target, value)
    }

    /// `access` as a statement.
    fn call(&self, line: Line, access: &Access) -> Result<Option<Boxed<TypedStmt>>, Refusal>
        requires arguments { call_unbuilt access.now ≡ None }
        ensures { AnswersForm (option_map stmt_of) result (name_called (context_of self.now) line
            (out-Access access.now).name (spec.call_arguments (out-Access access.now).selectors)) }
    {
        let meaning = meaning_of(self.scopes, &access.name);
        let Some(arguments) = call_arguments(access) else {
            return Err(Refusal::Rule(component_rule(&access.name, meaning)));
        };
        match &meaning {
            Meaning::Declared(declared) => self.call_declared(line, declared, arguments),
            Meaning::Standard(_) => Err(Refusal::Rule(rule::OTHER_THING)),
            Meaning::Required(required) => self.call_required(line, *required, arguments),
            Meaning::Field(_) => Err(Refusal::Rule(rule::OTHER_THING)),
            Meaning::Nothing => Err(Refusal::Rule(undeclared(&access.name))),
        }
    }

    /// A declared name as a statement.
    fn call_declared(
        &self,
        line: Line,
        declared: &Declared,
        arguments: &[Argument],
    ) -> Result<Option<Boxed<TypedStmt>>, Refusal>
        requires { first_in (map written_unbuilt arguments.now) ≡ None }
        ensures { AnswersForm (option_map stmt_of) result
            (declared_called (context_of self.now) line declared.now declared.now.what arguments.now) }
    {
        match &declared.what {
            Declaration::Procedure(parameters) => {
                self.call_own(line, declared, parameters.items(), arguments)
            }
            Declaration::Function(_, _, _) => Err(Refusal::Rule(rule::PROCEDURE)),
            Declaration::Constant(_, _, _) => Err(Refusal::Rule(rule::OTHER_THING)),
            Declaration::Type(_, _, _) => Err(Refusal::Rule(rule::OTHER_THING)),
            Declaration::Variable(_, _, _) => Err(Refusal::Rule(rule::OTHER_THING)),
            Declaration::Own(_, _, _) => Err(Refusal::Rule(rule::OTHER_THING)),
        }
    }

    /// A call of a procedure of a unit, which has these formal parameters.
    fn call_own(
        &self,
        line: Line,
        declared: &Declared,
        parameters: &[FormalParameter],
        arguments: &[Argument],
    ) -> Result<Option<Boxed<TypedStmt>>, Refusal>
        requires { first_in (map written_unbuilt arguments.now) ≡ None }
        ensures { AnswersForm (option_map stmt_of) result
            (own_called (context_of self.now) line declared.now parameters.now arguments.now) }
    {
        let taken = typed_arguments(self.alloc, parameters, arguments, self.scopes)?;
        let Some(actuals) = taken.into_actuals() else {
            return Ok(None);
        };
        let callee = callee_at(self.alloc, depth_in(self.scopes)?, declared)?;
        let call = TypedStmt::Procedure(line, callee, actuals);
        Ok(Some(Boxed::new(self.alloc, call)?))
    }

    /// A call of a required identifier.
    fn call_required(
        &self,
        line: Line,
        required: Required,
        arguments: &[Argument],
    ) -> Result<Option<Boxed<TypedStmt>>, Refusal>
        requires { first_in (map written_unbuilt arguments.now) ≡ None }
        ensures { AnswersForm (option_map stmt_of) result
            (required_called (context_of self.now) line required arguments.now) }
    {
        match required {
            Required::Constant(_) => Err(Refusal::Rule(rule::OTHER_THING)),
            Required::Type(_) => Err(Refusal::Rule(rule::OTHER_THING)),
            Required::Function(_) => Err(Refusal::Rule(rule::PROCEDURE)),
            Required::Procedure(Procedure::Halt) => self.halt(line, arguments),
            Required::Procedure(Procedure::Write) => self.write(line, false, arguments),
            Required::Procedure(Procedure::WriteLine) => self.write(line, true, arguments),
        }
    }

    /// `halt`, which has no arguments.
    fn halt(&self, line: Line, arguments: &[Argument]) -> Result<Option<Boxed<TypedStmt>>, Refusal>
        ensures { AnswersForm (option_map stmt_of) result (spec.halt_judged line arguments.now) }
    {
        if !arguments.is_empty() {
            return Err(Refusal::Rule(rule::ARGUMENTS));
        }
        Ok(Some(Boxed::new(self.alloc, TypedStmt::Halt(line))?))
    }

    /// A name that is assigned to, or the variable that an access with selectors denotes.
    fn target(&self, access: &Access) -> Result<Target, Refusal>
        requires { access_unbuilt access.now ≡ None }
        ensures { AnswersForm target_of result (target_judged (context_of self.now) access.now) }
    {
        match access.selectors.items() {
            [] => named_target(
                self.alloc,
                self.unit,
                self.scopes,
                self.results,
                &access.name,
            ),
            _ => denoted(self.alloc, self.scopes, access),
        }
    }

    /// A name as the control variable of a `for`. It is a variable that the block declares, of an ordinal type, and no
    /// routine of the block threatens it (ISO 10206, 6.9.3.9.1).
    fn control(&self, name: &Name) -> Result<Counted<'a>, Refusal>
        ensures { AnswersForm counted_of result (control_judged (context_of self.now) name.now) }
    {
        let counted = counted_by(control_named(self.scopes, self.locals, name)?)?;
        if is_threatened_in(self.locals, self.routines, counted.variable)? {
            return Err(Refusal::Rule(rule::CONTROL_THREATENED));
        }
        Ok(counted)
    }

    /// The records of a `with`, each one where those before it are open.
    fn opened(&self, accesses: &[Access]) -> Result<Opened<'a>, Refusal>
        requires { first_in (map access_unbuilt accesses.now) ≡ None }
        ensures { AnswersForm opened_of result
            (records_opened (context_of self.now) accesses.now (none_opened (context_of self.now))) }
    {
        let mut opened = Opened {
            inner: self.scopes.inner(self.alloc)?,
            withs: self.withs,
            heads: Some(List::new(self.alloc)),
        };
        for access in accesses {
            opened = self.one_opened(opened, access)?;
        }
        Ok(opened)
    }

    /// A record that is named where others are open.
    fn one_opened(&self, opened: Opened<'a>, access: &Access) -> Result<Opened<'a>, Refusal>
        requires { access_unbuilt access.now ≡ None }
        ensures { AnswersForm opened_of result
            (record_opened (context_of self.now) access.now (opened_of opened.entry)) }
    {
        let named = named_record(self.alloc, self.scopes, &opened.inner, access)?;
        Ok(opened.one_more(self.alloc, self.locals, named)?)
    }

    /// `write`, or `writeln` where the line is ended.
    fn write(
        &self,
        line: Line,
        ends_line: bool,
        arguments: &[Argument],
    ) -> Result<Option<Boxed<TypedStmt>>, Refusal>
        requires { first_in (map written_unbuilt arguments.now) ≡ None }
        ensures { AnswersForm (option_map stmt_of) result
            (write_judged (context_of self.now) line ends_line arguments.now) }
    {
        if let Some((first, more)) = arguments.split_first() {
            if let Some(file) = self.file_given(first) {
                return write_to(self.alloc, self.scopes, file, line, ends_line, more);
            }
        }
        let form = write_to(
            self.alloc,
            self.scopes,
            StandardFile::Output,
            line,
            ends_line,
            arguments,
        )?;
        if self.files.has(StandardFile::Output) {
            Ok(form)
        } else {
            Err(Refusal::Rule(rule::STANDARD_FILE))
        }
    }

    /// The text file that a parameter is.
    fn file_given(&self, argument: &Argument) -> Option<StandardFile>
        ensures { result ≡ file_given (context_of self.now) argument.now }
    {
        if argument.width.is_some() {
            return None;
        }
        let name = identifier(argument.value.get())?;
        match &meaning_of(self.scopes, name) {
            Meaning::Standard(file) => Some(*file),
            _ => None,
        }
    }
}
