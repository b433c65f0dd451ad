//! Modules.

ghost use Rattle.std.specs.Prelude.{◌≡◌, ◌++◌, ◌∷◌, [], IfOk, OnErr, OnOk, None, length};
ghost use Rattle.std.specs.Option.{is_none};
ghost use Rattle.naga_ir.specs.Empty.{IsEmptyModule};
ghost use Rattle.naga_builder.specs.Building.{AddsEntryPoint, AddsFunction, AddsGlobalExpression};
ghost use Rattle.naga_builder.specs.Building.{AddsInferredOwn, FindsType, HasPartsOf};
ghost use Rattle.naga_builder.specs.Building.{IsLabel, IsNew, IsTypeOf, IsUnlabelled};
ghost use Rattle.naga_builder.specs.Building.{KeepsModule, KnowsNothing, next_own_type, no_extras};
ghost use Rattle.naga_builder.specs.Building.{KeepsPredeclared, TellsPredeclared};
ghost use Rattle.naga_builder.specs.Errors.{is_untyped};
ghost use Rattle.naga_ir.specs.declared.types.Type_.{Type_};
ghost use Rattle.naga_ir.specs.declared.types.TypeInner.TheVariants as inner;

use crate::error::BuildError;
use crate::function::{BuiltFunction, FunctionBuilder};
use naga_acceptance::parts::Known;
use naga_inference::inferred_type;
use naga_info::{FunctionInfo, ModuleInfo, TypeResolution};
use naga_ir::{
    Constant, EntryPoint, Expression, Function, GlobalVariable, Handle, MeshStageInfo, Module,
    Override, PredeclaredType, Scalar, ShaderStage, StructMember, Type_, TypeInner, VectorSize,
};
use std::alloc::{AllocError, Global};

/// What an entry point of some stages has beside its label, its size of workgroups and its function.
#[derive(Debug, Clone, Copy, PartialEq, Eq)]
pub struct StageExtras {
    /// What a mesh stage has beside.
    pub mesh_info: Option<MeshStageInfo>,
    /// The global variable of the payload between a task and a mesh stage.
    pub task_payload: Option<Handle<GlobalVariable>>,
    /// The global variable of the payload that came with the ray.
    pub incoming_ray_payload: Option<Handle<GlobalVariable>>,
    /// The overrides that stand in place of the numbers of the workgroups' size.
    pub workgroup_size_overrides: [Option<Handle<Override>>; 3],
}

impl StageExtras {
    /// None of them, as of a vertex, fragment or compute stage.
    pub fn none() -> Self
        ensures { result ≡ no_extras }
    {
        StageExtras {
            mesh_info: None,
            task_payload: None,
            incoming_ray_payload: None,
            workgroup_size_overrides: [None, None, None],
        }
    }
}

/// A module that is being built, with what is known of it. A call that answers an `Err` adds nothing.
///
/// Its fields are what it has made. Each call keeps them in step: what is known is known of the
/// functions, entry points and expressions that are there, in their order.
///
/// As in `crates/example_double`:
///
/// ```text
/// let mut shader = ModuleBuilder::new(alloc);
/// let i32_type = shader.scalar(Scalar::I32)?;
/// let mut double = shader.function("double")?;
/// let x = double.argument("x", i32_type)?;
/// double.returns(i32_type);
/// let sum = double.binary(BinaryOperator::Add, x, x)?;
/// double.body.emit(sum, sum)?;
/// double.body.return_value(sum)?;
/// let double = double.finish();
/// shader.add_function(double)?;
/// ```
pub struct ModuleBuilder {
    alloc: Global,
    /// The module.
    pub module: Module,
    /// What is known of it.
    pub info: ModuleInfo,
}

impl Drop for ModuleBuilder {
    fn drop(self) {
        let ModuleBuilder {
            alloc: _,
            module,
            info,
        } = self;
        drop(module);
        drop(info);
    }
}

impl ModuleBuilder {
    /// The empty module.
    pub fn new(alloc: Global) -> Self
        ensures empty { IsEmptyModule result.«module» }
        ensures unknown { KnowsNothing result.info }
    {
        ModuleBuilder {
            alloc,
            module: Module::new(alloc),
            info: ModuleInfo {
                functions: Vec::new(alloc),
                entry_points: Vec::new(alloc),
                const_expression_types: Vec::new(alloc),
            },
        }
    }

    /// The module, with what is known of it.
    pub fn finish(self) -> (Module, ModuleInfo)
        ensures { result ≡ (self.«module», self.info) }
    {
        let ModuleBuilder {
            alloc: _,
            module,
            info,
        } = self;
        (module, info)
    }

    /// The type that equals this one; where there is none, it is added.
    pub fn add_type(&mut self, ty: Type_) -> Result<Handle<Type_>, AllocError>
        ensures ok { IfOk result (FindsType ty self.old self.new) }
        ensures err { OnErr result (self.new ≡ self.old) }
    {
        self.module.types.insert(ty)
    }

    /// The type of this form that has no name; where there is none, it is added.
    pub fn type_of(&mut self, inner: TypeInner) -> Result<Handle<Type_>, AllocError>
        ensures ok { IfOk result (IsTypeOf inner self.old self.new) }
        ensures err { OnErr result (self.new ≡ self.old) }
    {
        self.add_type(Type_ { name: None, inner })
    }

    /// The scalar type.
    pub fn scalar(&mut self, scalar: Scalar) -> Result<Handle<Type_>, AllocError>
        ensures ok { IfOk result (IsTypeOf (inner.Scalar scalar) self.old self.new) }
        ensures err { OnErr result (self.new ≡ self.old) }
    {
        self.type_of(TypeInner::Scalar(scalar))
    }

    /// The type of vectors of so many of these scalars.
    pub fn vector(&mut self, size: VectorSize, scalar: Scalar) -> Result<Handle<Type_>, AllocError>
        ensures ok { IfOk result (IsTypeOf (inner.Vector size scalar) self.old self.new) }
        ensures err { OnErr result (self.new ≡ self.old) }
    {
        self.type_of(TypeInner::Vector { size, scalar })
    }

    /// The struct of this label with these members, which takes so many bytes; where there is none
    /// that equals it, it is added.
    pub fn structure(
        &mut self,
        label: &str,
        members: Vec<StructMember>,
        span: u32,
    ) -> Result<Handle<Type_>, AllocError>
        ensures ok { IfOk result (λ h. (t : Type_) × IsLabel label.now t.name
            × (t.inner ≡ inner.Struct members span) × FindsType t self.old self.new h) }
        ensures err { OnErr result (self.new ≡ self.old) }
    {
        let name = Some(String::from_str(self.alloc, label)?);
        let inner = TypeInner::Struct { members, span };
        self.add_type(Type_ { name, inner })
    }

    /// Tells that this type of the module is what a function of WGSL's own gives, in place of what
    /// was told before.
    pub fn predeclared(
        &mut self,
        given: PredeclaredType,
        ty: Handle<Type_>,
    ) -> Result<(), AllocError>
        ensures ok { OnOk result (TellsPredeclared given ty self.old self.new) }
        ensures err { OnErr result (KeepsPredeclared self.old self.new) }
    {
        let types = &mut self.module.special_types.predeclared_types;
        types.insert(given, ty)?;
        Ok(())
    }

    /// Adds one of the module's own expressions, of this type, which may be none of the module's. It
    /// is the caller's own, and need not be the one that the expression has.
    pub fn typed_global_expression(
        &mut self,
        expression: Expression,
        ty: TypeResolution,
    ) -> Result<Handle<Expression>, AllocError>
        ensures handle { IfOk result (λ h. h ≡ length self.old.«module».global_expressions) }
        ensures ok { OnOk result (AddsGlobalExpression expression ty self.old self.new) }
        ensures err { OnErr result (KeepsModule self.old self.new) }
    {
        self.info.const_expression_types.reserve(1)?;
        let handle = self.module.global_expressions.append(expression)?;
        self.info.const_expression_types.push(ty).unwrap();
        Ok(handle)
    }

    /// Adds one of the module's own expressions, with the type that [`inferred_type`] gives it, or
    /// answers [`BuildError::Untyped`] where that is none.
    pub fn global_expression(
        &mut self,
        expression: Expression,
    ) -> Result<Handle<Expression>, BuildError>
        ensures handle { IfOk result (λ h. h ≡ length self.old.«module».global_expressions) }
        ensures ok { OnOk result (AddsInferredOwn expression self.old self.new) }
        ensures err { OnErr result (KeepsModule self.old self.new) }
        ensures untyped { is_untyped result ≡ is_none (next_own_type self.old expression) }
    {
        let known = Known::Global(self.info.const_expression_types.as_slice());
        match inferred_type(&self.module, None, known, &expression) {
            Some(ty) => Ok(self.typed_global_expression(expression, ty)?),
            None => Err(BuildError::Untyped),
        }
    }

    /// Adds a constant.
    pub fn add_constant(&mut self, constant: Constant) -> Result<Handle<Constant>, AllocError>
        ensures handle { IfOk result (λ h. h ≡ length self.old.«module».constants) }
        ensures ok { OnOk result (self.new ≡ record self.old {
          «module» = record self.old.«module» {
            constants = self.old.«module».constants ++ constant ∷ [];
          };
        }) }
        ensures err { OnErr result (self.new ≡ self.old) }
    {
        self.module.constants.append(constant)
    }

    /// Adds an override.
    pub fn add_override(&mut self, item: Override) -> Result<Handle<Override>, AllocError>
        ensures handle { IfOk result (λ h. h ≡ length self.old.«module».overrides) }
        ensures ok { OnOk result (self.new ≡ record self.old {
          «module» = record self.old.«module» {
            overrides = self.old.«module».overrides ++ item ∷ [];
          };
        }) }
        ensures err { OnErr result (self.new ≡ self.old) }
    {
        self.module.overrides.append(item)
    }

    /// Adds a global variable.
    pub fn add_global(
        &mut self,
        variable: GlobalVariable,
    ) -> Result<Handle<GlobalVariable>, AllocError>
        ensures handle { IfOk result (λ h. h ≡ length self.old.«module».global_variables) }
        ensures ok { OnOk result (self.new ≡ record self.old {
          «module» = record self.old.«module» {
            global_variables = self.old.«module».global_variables ++ variable ∷ [];
          };
        }) }
        ensures err { OnErr result (self.new ≡ self.old) }
    {
        self.module.global_variables.append(variable)
    }

    /// Begins a function of this label, with nothing else, for this module as it is now.
    pub fn function(&self, label: &str) -> Result<FunctionBuilder<'_>, AllocError>
        ensures { IfOk result (IsNew self.now.«module» label.now) }
    {
        FunctionBuilder::new(self.alloc, &self.module, label)
    }

    /// The same without a label. It takes no memory.
    pub fn unlabelled_function(&self) -> FunctionBuilder<'_>
        ensures { IsUnlabelled self.now.«module» result }
    {
        FunctionBuilder::unlabelled(self.alloc, &self.module)
    }

    /// Goes on with a function, for this module as it is now.
    pub fn resume(&self, function: BuiltFunction) -> FunctionBuilder<'_>
        ensures looks_at { result.«module».now ≡ self.now.«module» }
        ensures parts { HasPartsOf result function }
    {
        function.resumed(&self.module)
    }

    /// Adds a function after the others. Where memory is refused, the function is dropped.
    pub fn add_function(&mut self, function: BuiltFunction) -> Result<Handle<Function>, AllocError>
        ensures handle { IfOk result (λ h. h ≡ length self.old.«module».functions) }
        ensures ok { OnOk result (AddsFunction function self.old self.new) }
        ensures err { OnErr result (KeepsModule self.old self.new) }
    {
        self.info.functions.reserve(1)?;
        let (function, expressions) = function.into_parts();
        let handle = self.module.functions.append(function)?;
        self.info
            .functions
            .push(FunctionInfo { expressions })
            .unwrap();
        Ok(handle)
    }

    /// Adds an entry point of a stage that wants nothing beside its function
    /// ([`ModuleBuilder::add_stage_entry_point`]).
    pub fn add_entry_point(
        &mut self,
        label: &str,
        stage: ShaderStage,
        workgroup_size: [u32; 3],
        function: BuiltFunction,
    ) -> Result<(), AllocError>
        ensures ok { OnOk result
            (AddsEntryPoint function label.now stage workgroup_size no_extras self.old self.new) }
        ensures err { OnErr result (KeepsModule self.old self.new) }
    {
        self.add_stage_entry_point(label, stage, workgroup_size, StageExtras::none(), function)
    }

    /// Adds an entry point under the label by which pipelines name it, with the parts of its stage.
    /// Where memory is refused, its function is dropped.
    pub fn add_stage_entry_point(
        &mut self,
        label: &str,
        stage: ShaderStage,
        workgroup_size: [u32; 3],
        parts: StageExtras,
        function: BuiltFunction,
    ) -> Result<(), AllocError>
        ensures ok { OnOk result
            (AddsEntryPoint function label.now stage workgroup_size parts self.old self.new) }
        ensures err { OnErr result (KeepsModule self.old self.new) }
    {
        let name = String::from_str(self.alloc, label)?;
        self.info.entry_points.reserve(1)?;
        self.module.entry_points.reserve(1)?;
        let (function, expressions) = function.into_parts();
        let [x, y, z] = parts.workgroup_size_overrides;
        self.module
            .entry_points
            .push(EntryPoint {
                name,
                stage,
                workgroup_size,
                workgroup_size_overrides: [x, y, z],
                function,
                mesh_info: parts.mesh_info,
                task_payload: parts.task_payload,
                incoming_ray_payload: parts.incoming_ray_payload,
            })
            .unwrap();
        self.info
            .entry_points
            .push(FunctionInfo { expressions })
            .unwrap();
        Ok(())
    }
}
