//! Functions.

ghost use Rattle.std.specs.Prelude.{◌≡◌, ◌++◌, ◌∷◌, [], IfOk, OnErr, OnOk, None, Some, length};
ghost use Rattle.std.specs.Option.{is_none};
ghost use Rattle.naga_ir.specs.Literals.{literal_scalar};
ghost use Rattle.naga_builder.specs.Errors.{is_untyped};

use crate::block::BlockBuilder;
use crate::error::BuildError;
use naga_acceptance::parts::Known;
use naga_inference::inferred_type;
use naga_info::{ExpressionInfo, TypeResolution};
use naga_ir::{
    BinaryOperator, Binding, Constant, Expression, Function, FunctionArgument, FunctionResult,
    GlobalVariable, Handle, Literal, LocalVariable, Module, Type_, TypeInner, UnaryOperator,
    VectorSize,
};
use std::alloc::{AllocError, Global};

/// A function that is being built for a module, with what is known of its expressions. It looks at
/// the module, to which nothing can be added meanwhile: [`FunctionBuilder::finish`] ends that. A
/// call that answers an `Err` adds nothing.
///
/// `fn increased(x: i32) -> i32 { let next = (x + 1i); return next; }`:
///
/// ```text
/// let mut increased = shader.function("increased")?;
/// let x = increased.argument("x", i32_type)?;
/// increased.returns(i32_type);
/// let one = increased.literal(Literal::I32(1))?;
/// let sum = increased.binary(BinaryOperator::Add, x, one)?;
/// increased.name(sum, "next")?;
/// increased.body.emit(sum, sum)?;
/// increased.body.return_value(sum)?;
/// let increased = increased.finish();
/// shader.add_function(increased)?;
/// ```
///
/// The type of an expression is found by the module, by the arguments and locals that the function
/// has by then, and by the types of the expressions before it ([`inferred_type`]).
///
/// A loop that adds to it stands in a function that takes it by `&mut`: where a loop's function owns
/// it, the prover may not find by itself that what is known stays in step.
pub struct FunctionBuilder<'a> {
    alloc: Global,
    module: &'a Module,
    function: Function,
    known: Vec<ExpressionInfo>,
    /// What it does.
    pub body: BlockBuilder,
    /// One thing is known of each expression.
    pub ghost in_step: { length function.expressions ≡ length known.items },
}

impl Drop for FunctionBuilder<'_> {
    fn drop(self) {
        let FunctionBuilder {
            alloc: _,
            module: _,
            function,
            known,
            body,
        } = self;
        drop(function);
        drop(known);
        drop(body);
    }
}

/// A function that has been built, with what is known of its expressions. It looks at no module:
/// [`ModuleBuilder`](crate::ModuleBuilder) takes it, or goes on with it.
pub struct BuiltFunction {
    pub(crate) alloc: Global,
    pub(crate) function: Function,
    pub(crate) known: Vec<ExpressionInfo>,
    pub(crate) body: BlockBuilder,
    /// One thing is known of each expression.
    pub ghost in_step: { length function.expressions ≡ length known.items },
}

impl Drop for BuiltFunction {
    fn drop(self) {
        let BuiltFunction {
            alloc: _,
            function,
            known,
            body,
        } = self;
        drop(function);
        drop(known);
        drop(body);
    }
}

impl BuiltFunction {
    ghost use Rattle.naga_builder.specs.Building.{HasPartsOf, function_of};

    /// The same function, which looks at this module.
    pub(crate) fn resumed<'a>(self, module: &'a Module) -> FunctionBuilder<'a>
        ensures looks_at { result.«module».now ≡ «module».now }
        ensures parts { HasPartsOf result self }
    {
        let BuiltFunction {
            alloc,
            function,
            known,
            body,
        } = self;
        FunctionBuilder {
            alloc,
            module,
            function,
            known,
            body,
        }
    }

    /// The function, with what is known of its expressions: one thing of each.
    pub(crate) fn into_parts(self) -> (Function, Vec<ExpressionInfo>)
        ensures function { result.0 ≡ function_of self }
        ensures known { result.1 ≡ self.known }
        ensures in_step { length result.0.expressions ≡ length result.1.items }
    {
        let BuiltFunction {
            alloc: _,
            mut function,
            known,
            body,
        } = self;
        function.body = body.finish();
        (function, known)
    }
}

impl<'a> FunctionBuilder<'a> {
    ghost use Rattle.naga_ir.specs.declared.expression.Expression.{Expression};
    ghost use Rattle.naga_ir.specs.declared.expression.Expression.TheVariants as expression;
    ghost use Rattle.naga_ir.specs.declared.module.FunctionArgument.{FunctionArgument};
    ghost use Rattle.naga_ir.specs.declared.module.LocalVariable.{LocalVariable};
    ghost use Rattle.naga_info.specs.declared.info.TypeResolution.TheVariants as type_of;
    ghost use Rattle.naga_builder.specs.Building.{AddsArgument, AddsExpression, AddsInferred};
    ghost use Rattle.naga_builder.specs.Building.{AddsLocal, GetsFunction, HasPartsOf};
    ghost use Rattle.naga_builder.specs.Building.{IsLabel, IsNew};
    ghost use Rattle.naga_builder.specs.Building.{IsUnlabelled, Keeps, KeepsNames};
    ghost use Rattle.naga_builder.specs.Building.{NamesExpression, next_type};
    ghost use Rattle.naga_ir.specs.declared.types.TypeInner.TheVariants as inner;

    /// A function of this label, with nothing else.
    pub(crate) fn new(alloc: Global, module: &'a Module, label: &str) -> Result<Self, AllocError>
        ensures { IfOk result (IsNew «module».now label.now) }
    {
        let name = String::from_str(alloc, label)?;
        let mut function = Function::new(alloc);
        function.name = Some(name);
        Ok(FunctionBuilder {
            alloc,
            module,
            function,
            known: Vec::new(alloc),
            body: BlockBuilder::new(alloc),
        })
    }

    /// A function without a label, with nothing else. It takes no memory.
    pub(crate) fn unlabelled(alloc: Global, module: &'a Module) -> Self
        ensures { IsUnlabelled «module».now result }
    {
        FunctionBuilder {
            alloc,
            module,
            function: Function::new(alloc),
            known: Vec::new(alloc),
            body: BlockBuilder::new(alloc),
        }
    }

    /// The function, which no longer looks at the module.
    pub fn finish(self) -> BuiltFunction
        ensures { HasPartsOf self.entry result }
    {
        let FunctionBuilder {
            alloc,
            module: _,
            function,
            known,
            body,
        } = self;
        BuiltFunction {
            alloc,
            function,
            known,
            body,
        }
    }

    /// Gives the function this label, in place of one that it has.
    pub fn label(&mut self, label: &str) -> Result<(), AllocError>
        ensures labelled { OnOk result (IsLabel label.now self.new.function.name) }
        ensures rest { OnOk result (GetsFunction
            (record self.old.function { name = self.new.function.name }) self.old self.new) }
        ensures err { OnErr result (self.new ≡ self.old) }
    {
        let name = String::from_str(self.alloc, label)?;
        self.function.name = Some(name);
        Ok(())
    }

    /// Adds an argument, and gives the expression that is its value. A function with 2^32
    /// arguments has room for no more, which is told as want of memory.
    pub fn add_argument(
        &mut self,
        argument: FunctionArgument,
    ) -> Result<Handle<Expression>, AllocError>
        ensures handle { IfOk result (λ h. h ≡ length self.old.function.expressions) }
        ensures ok { OnOk result (AddsArgument argument self.old self.new) }
        ensures err { OnErr result (Keeps self.old self.new) }
    {
        let Ok(number) = u32::try_from(self.function.arguments.len()) else {
            return Err(AllocError);
        };
        let ty = argument.ty;
        self.function.arguments.reserve(1)?;
        let value = self.typed(
            Expression::FunctionArgument(number),
            TypeResolution::Handle(ty),
        )?;
        self.function.arguments.push(argument).unwrap();
        Ok(value)
    }

    /// Adds an argument that is not bound ([`FunctionBuilder::add_argument`]).
    pub fn argument(
        &mut self,
        label: &str,
        ty: Handle<Type_>,
    ) -> Result<Handle<Expression>, AllocError>
        ensures handle { IfOk result (λ h. h ≡ length self.old.function.expressions) }
        ensures ok { OnOk result ((a : FunctionArgument) × IsLabel label.now a.name × (a.ty ≡ ty)
            × (a.binding ≡ None) × AddsArgument a self.old self.new) }
        ensures err { OnErr result (Keeps self.old self.new) }
    {
        let name = Some(String::from_str(self.alloc, label)?);
        self.add_argument(FunctionArgument {
            name,
            ty,
            binding: None,
        })
    }

    /// Gives the function a result of this type, which is not bound.
    pub fn returns(&mut self, ty: Handle<Type_>)
        ensures { GetsFunction (record self.old.function {
          result = Some (record { ty = ty; binding = None });
        }) self.old self.new }
    {
        self.function.result = Some(FunctionResult { ty, binding: None });
    }

    /// Gives the function a result of this type, bound so.
    pub fn returns_with_binding(&mut self, ty: Handle<Type_>, binding: Binding)
        ensures { GetsFunction (record self.old.function {
          result = Some (record { ty = ty; binding = Some binding });
        }) self.old self.new }
    {
        self.function.result = Some(FunctionResult {
            ty,
            binding: Some(binding),
        });
    }

    /// Adds a local variable with this first value; absent means zero.
    pub fn local(
        &mut self,
        label: &str,
        ty: Handle<Type_>,
        init: Option<Handle<Expression>>,
    ) -> Result<Handle<LocalVariable>, AllocError>
        ensures handle { IfOk result (λ h. h ≡ length self.old.function.local_variables) }
        ensures ok { OnOk result ((l : LocalVariable) × IsLabel label.now l.name × (l.ty ≡ ty)
            × (l.init ≡ init) × AddsLocal l self.old self.new) }
        ensures err { OnErr result (Keeps self.old self.new) }
    {
        let name = Some(String::from_str(self.alloc, label)?);
        self.function
            .local_variables
            .append(LocalVariable { name, ty, init })
    }

    /// Gives an expression the name that a front end has for it, in place of one that it has. Where
    /// the expression is emitted, a `let` binds it under an identifier made of this label.
    pub fn name(&mut self, handle: Handle<Expression>, label: &str) -> Result<(), AllocError>
        ensures ok { OnOk result (NamesExpression handle label.now self.old self.new) }
        ensures err { OnErr result (KeepsNames self.old self.new) }
    {
        let label = String::from_str(self.alloc, label)?;
        self.function.named_expressions.insert(handle, label)?;
        Ok(())
    }

    /// Adds an expression of this type, which may be none of the module's. It is the caller's own,
    /// and need not be the one that the expression has, as where a test wants another.
    pub fn typed(
        &mut self,
        expression: Expression,
        ty: TypeResolution,
    ) -> Result<Handle<Expression>, AllocError>
        ensures handle { IfOk result (λ h. h ≡ length self.old.function.expressions) }
        ensures ok { OnOk result (AddsExpression expression ty self.old self.new) }
        ensures err { OnErr result (Keeps self.old self.new) }
        ensures arguments { self.new.function.arguments ≡ self.old.function.arguments }
    {
        self.known.reserve(1)?;
        let handle = self.function.expressions.append(expression)?;
        self.known
            .push(ExpressionInfo { ref_count: 0, ty })
            .unwrap();
        Ok(handle)
    }

    /// Adds an expression, with the type that [`inferred_type`] gives it, or answers
    /// [`BuildError::Untyped`] where that is none.
    pub fn expression(&mut self, expression: Expression) -> Result<Handle<Expression>, BuildError>
        ensures handle { IfOk result (λ h. h ≡ length self.old.function.expressions) }
        ensures ok { OnOk result (AddsInferred expression self.old self.new) }
        ensures err { OnErr result (Keeps self.old self.new) }
        ensures untyped { is_untyped result ≡ is_none (next_type self.old expression) }
    {
        let known = Known::Function(self.known.as_slice());
        match inferred_type(self.module, Some(&self.function), known, &expression) {
            Some(ty) => Ok(self.typed(expression, ty)?),
            None => Err(BuildError::Untyped),
        }
    }

    /// Adds the pointer to a local variable.
    pub fn pointer_to(
        &mut self,
        local: Handle<LocalVariable>,
    ) -> Result<Handle<Expression>, BuildError>
        ensures handle { IfOk result (λ h. h ≡ length self.old.function.expressions) }
        ensures ok { OnOk result (AddsInferred (expression.LocalVariable local) self.old self.new) }
        ensures err { OnErr result (Keeps self.old self.new) }
        ensures untyped { is_untyped result
            ≡ is_none (next_type self.old (expression.LocalVariable local)) }
    {
        self.expression(Expression::LocalVariable(local))
    }

    /// Adds a global variable: the pointer to it, or where it lives in the space of handles, as an
    /// image does, what it is.
    pub fn global(
        &mut self,
        variable: Handle<GlobalVariable>,
    ) -> Result<Handle<Expression>, BuildError>
        ensures handle { IfOk result (λ h. h ≡ length self.old.function.expressions) }
        ensures ok { OnOk result
            (AddsInferred (expression.GlobalVariable variable) self.old self.new) }
        ensures err { OnErr result (Keeps self.old self.new) }
        ensures untyped { is_untyped result
            ≡ is_none (next_type self.old (expression.GlobalVariable variable)) }
    {
        self.expression(Expression::GlobalVariable(variable))
    }

    /// Adds the value of one of the module's constants.
    pub fn constant(&mut self, constant: Handle<Constant>) -> Result<Handle<Expression>, BuildError>
        ensures handle { IfOk result (λ h. h ≡ length self.old.function.expressions) }
        ensures ok { OnOk result (AddsInferred (expression.Constant constant) self.old self.new) }
        ensures err { OnErr result (Keeps self.old self.new) }
        ensures untyped { is_untyped result
            ≡ is_none (next_type self.old (expression.Constant constant)) }
    {
        self.expression(Expression::Constant(constant))
    }

    /// Adds a literal, whose type is its scalar.
    pub fn literal(&mut self, literal: Literal) -> Result<Handle<Expression>, AllocError>
        ensures handle { IfOk result (λ h. h ≡ length self.old.function.expressions) }
        ensures ok { OnOk result
            (AddsExpression (expression.Literal literal)
            (type_of.Value (inner.Scalar (literal_scalar literal))) self.old self.new) }
        ensures err { OnErr result (Keeps self.old self.new) }
    {
        let scalar = TypeInner::Scalar(literal.scalar());
        self.typed(Expression::Literal(literal), TypeResolution::Value(scalar))
    }

    /// Adds what a pointer points to.
    pub fn load(&mut self, pointer: Handle<Expression>) -> Result<Handle<Expression>, BuildError>
        ensures handle { IfOk result (λ h. h ≡ length self.old.function.expressions) }
        ensures ok { OnOk result (AddsInferred (expression.Load pointer) self.old self.new) }
        ensures err { OnErr result (Keeps self.old self.new) }
        ensures untyped { is_untyped result
            ≡ is_none (next_type self.old (expression.Load pointer)) }
    {
        self.expression(Expression::Load { pointer })
    }

    /// Adds an operator between two operands.
    pub fn binary(
        &mut self,
        op: BinaryOperator,
        left: Handle<Expression>,
        right: Handle<Expression>,
    ) -> Result<Handle<Expression>, BuildError>
        ensures handle { IfOk result (λ h. h ≡ length self.old.function.expressions) }
        ensures ok { OnOk result
            (AddsInferred (expression.Binary op left right) self.old self.new) }
        ensures err { OnErr result (Keeps self.old self.new) }
        ensures untyped { is_untyped result
            ≡ is_none (next_type self.old (expression.Binary op left right)) }
    {
        self.expression(Expression::Binary { op, left, right })
    }

    /// Adds an operator before one operand.
    pub fn unary(
        &mut self,
        op: UnaryOperator,
        operand: Handle<Expression>,
    ) -> Result<Handle<Expression>, BuildError>
        ensures handle { IfOk result (λ h. h ≡ length self.old.function.expressions) }
        ensures ok { OnOk result (AddsInferred (expression.Unary op operand) self.old self.new) }
        ensures err { OnErr result (Keeps self.old self.new) }
        ensures untyped { is_untyped result
            ≡ is_none (next_type self.old (expression.Unary op operand)) }
    {
        self.expression(Expression::Unary { op, expr: operand })
    }

    /// Adds the vector with one value in each of its components.
    pub fn splat(
        &mut self,
        size: VectorSize,
        value: Handle<Expression>,
    ) -> Result<Handle<Expression>, BuildError>
        ensures handle { IfOk result (λ h. h ≡ length self.old.function.expressions) }
        ensures ok { OnOk result (AddsInferred (expression.Splat size value) self.old self.new) }
        ensures err { OnErr result (Keeps self.old self.new) }
        ensures untyped { is_untyped result
            ≡ is_none (next_type self.old (expression.Splat size value)) }
    {
        self.expression(Expression::Splat { size, value })
    }

    /// Adds the value that is accepted or rejected by the condition.
    pub fn select(
        &mut self,
        condition: Handle<Expression>,
        accept: Handle<Expression>,
        reject: Handle<Expression>,
    ) -> Result<Handle<Expression>, BuildError>
        ensures handle { IfOk result (λ h. h ≡ length self.old.function.expressions) }
        ensures ok { OnOk result
            (AddsInferred (expression.Select condition accept reject) self.old self.new) }
        ensures err { OnErr result (Keeps self.old self.new) }
        ensures untyped { is_untyped result
            ≡ is_none (next_type self.old (expression.Select condition accept reject)) }
    {
        self.expression(Expression::Select {
            condition,
            accept,
            reject,
        })
    }

    /// Adds the part with this number of a value, as a component of a vector or a member of a struct,
    /// or of what a pointer points to, as a pointer.
    pub fn part(
        &mut self,
        base: Handle<Expression>,
        index: u32,
    ) -> Result<Handle<Expression>, BuildError>
        ensures handle { IfOk result (λ h. h ≡ length self.old.function.expressions) }
        ensures ok { OnOk result
            (AddsInferred (expression.AccessIndex base index) self.old self.new) }
        ensures err { OnErr result (Keeps self.old self.new) }
        ensures untyped { is_untyped result
            ≡ is_none (next_type self.old (expression.AccessIndex base index)) }
    {
        self.expression(Expression::AccessIndex { base, index })
    }

    /// Adds the zero value of a type.
    pub fn zero(&mut self, ty: Handle<Type_>) -> Result<Handle<Expression>, AllocError>
        ensures handle { IfOk result (λ h. h ≡ length self.old.function.expressions) }
        ensures ok { OnOk result
            (AddsExpression (expression.ZeroValue ty) (type_of.Handle ty) self.old self.new) }
        ensures err { OnErr result (Keeps self.old self.new) }
    {
        self.typed(Expression::ZeroValue(ty), TypeResolution::Handle(ty))
    }

    /// Adds the value of a type that is composed of these parts.
    pub fn compose(
        &mut self,
        ty: Handle<Type_>,
        components: Vec<Handle<Expression>>,
    ) -> Result<Handle<Expression>, AllocError>
        ensures handle { IfOk result (λ h. h ≡ length self.old.function.expressions) }
        ensures ok { OnOk result
            (AddsExpression (expression.Compose ty components) (type_of.Handle ty)
            self.old self.new) }
        ensures err { OnErr result (Keeps self.old self.new) }
    {
        let composed = Expression::Compose { ty, components };
        self.typed(composed, TypeResolution::Handle(ty))
    }
}
