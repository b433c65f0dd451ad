//! Items, each in a line with its type.

use crate::declarations::{
    push_constant, push_init, push_listed_type, push_override, push_variable,
};
use crate::expressions::{push_expression, push_function};
use crate::lookup::item_at;
use crate::numbers::statement_at;
use crate::operands::{push_label, push_numbered};
use crate::positions::{Listed, Spot};
use crate::statement_words::push_statement;
use crate::types::{push_resolution, push_type};
use naga_info::{FunctionInfo, ModuleInfo};
use naga_ir::{
    Binding, EntryPoint, Expression, Function, FunctionArgument, Handle, LocalVariable, Module,
    Type_,
};
use std::alloc::{AllocError, Global};

/// The column in which types begin.
const TYPE_COLUMN: usize = 44;

/// What is listed, with the module around it and what is known of it.
#[derive(Clone, Copy)]
pub(crate) struct Lister<'m, 'i, 'p> {
    alloc: Global,
    module: &'m Module,
    info: &'i ModuleInfo,
    listed: &'p Listed,
}

impl<'m, 'i, 'p> Lister<'m, 'i, 'p> {
    pub(crate) fn new(
        alloc: Global,
        module: &'m Module,
        info: &'i ModuleInfo,
        listed: &'p Listed,
    ) -> Self {
        Lister {
            alloc,
            module,
            info,
            listed,
        }
    }

    /// The function that is listed, if it is one that the module has.
    fn function(&self) -> Option<&'m Function> {
        match self.listed {
            Listed::Declarations => None,
            Listed::Function(handle) => item_at(&self.module.functions, *handle),
            Listed::EntryPoint(index) => match self.module.entry_points.get(*index) {
                Some(entry_point) => Some(&entry_point.function),
                None => None,
            },
        }
    }

    /// What is known of it.
    fn known(&self) -> Option<&'i FunctionInfo> {
        match self.listed {
            Listed::Declarations => None,
            Listed::Function(handle) => self.info.functions.get(handle.index()),
            Listed::EntryPoint(index) => self.info.entry_points.get(*index),
        }
    }

    /// Appends what a line is about, and its type, if it has one that is known.
    pub(crate) fn push_item(&self, spot: &Spot, out: &mut String) -> Result<(), AllocError> {
        match spot {
            Spot::Whole => self.push_head(out),
            Spot::Statement(number) => self.push_statement(*number, out),
            _ => self.push_typed(spot, out),
        }
    }

    /// Appends what an item is, and its type, if that is known.
    fn push_typed(&self, spot: &Spot, out: &mut String) -> Result<(), AllocError> {
        let mut line = String::new(self.alloc);
        self.push_words(spot, &mut line)?;
        let mut ty = String::new(self.alloc);
        self.push_type_of(spot, &mut ty)?;
        push_columns(line.as_str(), ty.as_str(), out)
    }

    /// Appends what an item is, without its type.
    fn push_words(&self, spot: &Spot, out: &mut String) -> Result<(), AllocError> {
        match spot {
            Spot::Type_(handle) => push_listed_type(self.alloc, self.module, *handle, out),
            Spot::Constant(handle) => push_constant(self.module, *handle, out),
            Spot::Override(handle) => push_override(self.module, *handle, out),
            Spot::GlobalVariable(handle) => push_variable(self.module, *handle, out),
            Spot::GlobalExpression(handle) => self.push_global_expression(*handle, out),
            Spot::Local(handle) => self.push_local(*handle, out),
            Spot::Expression(handle) => self.push_expression(*handle, out),
            Spot::Whole | Spot::Statement(_) => Ok(()),
        }
    }

    fn push_global_expression(
        &self,
        handle: Handle<Expression>,
        out: &mut String,
    ) -> Result<(), AllocError> {
        if let Some(expression) = item_at(&self.module.global_expressions, handle) {
            push_expression(self.alloc, self.module, None, expression, out)?;
        }
        Ok(())
    }

    fn push_local(
        &self,
        handle: Handle<LocalVariable>,
        out: &mut String,
    ) -> Result<(), AllocError> {
        if let Some(function) = self.function() {
            if let Some(local) = item_at(&function.local_variables, handle) {
                push_init(local.init, out)?;
                push_label(local.name.as_ref(), out)?;
            }
        }
        Ok(())
    }

    /// Appends an expression of the function, and the label that its value has.
    fn push_expression(
        &self,
        handle: Handle<Expression>,
        out: &mut String,
    ) -> Result<(), AllocError> {
        if let Some(function) = self.function() {
            if let Some(expression) = item_at(&function.expressions, handle) {
                push_expression(self.alloc, self.module, Some(function), expression, out)?;
            }
            if let Some(label) = function.named_expressions.get(&handle) {
                write!(out, " as {:?}", label.as_str())?;
            }
        }
        Ok(())
    }

    fn push_statement(&self, number: usize, out: &mut String) -> Result<(), AllocError> {
        if let Some(function) = self.function() {
            if let Some(statement) = statement_at(&function.body, number) {
                push_statement(self.module, statement, out)?;
            }
        }
        Ok(())
    }

    // ---- types

    /// Appends the type of an item, if it has one that is known.
    fn push_type_of(&self, spot: &Spot, out: &mut String) -> Result<(), AllocError> {
        match spot {
            Spot::GlobalExpression(handle) => self.push_global_type(*handle, out),
            Spot::Expression(handle) => self.push_expression_type(*handle, out),
            _ => match self.declared_type(spot) {
                Some(ty) => push_type(self.alloc, self.module, ty, out),
                None => Ok(()),
            },
        }
    }

    fn push_global_type(
        &self,
        handle: Handle<Expression>,
        out: &mut String,
    ) -> Result<(), AllocError> {
        match self.info.const_expression_types.get(handle.index()) {
            Some(resolution) => push_resolution(self.alloc, self.module, resolution, out),
            None => Ok(()),
        }
    }

    fn push_expression_type(
        &self,
        handle: Handle<Expression>,
        out: &mut String,
    ) -> Result<(), AllocError> {
        if let Some(known) = self.known() {
            if let Some(expression) = known.expressions.get(handle.index()) {
                push_resolution(self.alloc, self.module, &expression.ty, out)?;
            }
        }
        Ok(())
    }

    /// The type that a constant, an override or a variable is declared with.
    fn declared_type(&self, spot: &Spot) -> Option<Handle<Type_>> {
        match spot {
            Spot::Constant(handle) => Some(item_at(&self.module.constants, *handle)?.ty),
            Spot::Override(handle) => Some(item_at(&self.module.overrides, *handle)?.ty),
            Spot::GlobalVariable(handle) => {
                Some(item_at(&self.module.global_variables, *handle)?.ty)
            }
            Spot::Local(handle) => Some(item_at(&self.function()?.local_variables, *handle)?.ty),
            _ => None,
        }
    }

    // ---- the first line

    /// Appends what is listed: `function 0 "double"("x": i32) -> i32`.
    fn push_head(&self, out: &mut String) -> Result<(), AllocError> {
        match self.listed {
            Listed::Declarations => out.push_str("module"),
            Listed::Function(handle) => {
                out.push_str("function")?;
                push_function(self.module, *handle, out)?;
                self.push_signature(out)
            }
            Listed::EntryPoint(index) => {
                out.push_str("entry point")?;
                match self.module.entry_points.get(*index) {
                    Some(entry_point) => push_stage(*index, entry_point, out)?,
                    None => push_numbered(*index, None, out)?,
                }
                self.push_signature(out)
            }
        }
    }

    fn push_signature(&self, out: &mut String) -> Result<(), AllocError> {
        let Some(function) = self.function() else {
            return Ok(());
        };
        out.push_str("(")?;
        self.push_arguments(&function.arguments, out)?;
        out.push_str(")")?;
        if let Some(value) = function.result {
            out.push_str(" -> ")?;
            push_binding(value.binding, out)?;
            push_type(self.alloc, self.module, value.ty, out)?;
        }
        Ok(())
    }

    fn push_arguments(
        &self,
        arguments: &[FunctionArgument],
        out: &mut String,
    ) -> Result<(), AllocError> {
        let mut separator = "";
        for argument in arguments {
            out.push_str(separator)?;
            push_binding(argument.binding, out)?;
            self.push_argument(argument, out)?;
            separator = ", ";
        }
        Ok(())
    }

    fn push_argument(
        &self,
        argument: &FunctionArgument,
        out: &mut String,
    ) -> Result<(), AllocError> {
        if let Some(label) = &argument.name {
            write!(out, "{:?}: ", label.as_str())?;
        }
        push_type(self.alloc, self.module, argument.ty, out)
    }
}

fn push_stage(index: usize, entry_point: &EntryPoint, out: &mut String) -> Result<(), AllocError> {
    let stage = entry_point.stage;
    write!(out, " {index} {:?} {stage:?}", entry_point.name.as_str())
}

/// Appends how a value is bound, if it is: `@builtin Position`, `@location 3`.
fn push_binding(binding: Option<Binding>, out: &mut String) -> Result<(), AllocError> {
    match binding {
        Some(Binding::BuiltIn(value)) => write!(out, "@builtin {value:?} "),
        Some(Binding::Location { location, .. }) => write!(out, "@location {location} "),
        None => Ok(()),
    }
}

/// Appends two texts, the second from a column on, or two blanks after a first one that is longer.
fn push_columns(first: &str, second: &str, out: &mut String) -> Result<(), AllocError> {
    out.push_str(first)?;
    if second.is_empty() {
        return Ok(());
    }
    for _ in first.len()..TYPE_COLUMN {
        out.push_str(" ")?;
    }
    out.push_str("  ")?;
    out.push_str(second)
}
