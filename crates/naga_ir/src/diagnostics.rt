//! How diagnostics are filtered: their severities, the rules that trigger them, and which filters
//! hold.

use crate::arena::{Handle, Item};

/// How bad a diagnostic is.
#[derive(Debug, Clone, Copy, PartialEq, Eq)]
pub enum Severity {
    /// It is not told: `off`.
    Off,
    /// It is told for information: `info`.
    Info,
    /// It is told as a warning: `warning`.
    Warning,
    /// It refuses the shader: `error`.
    Error,
}

/// A rule of the WGSL standard whose diagnostics can be filtered.
#[derive(Debug, Clone, Copy, PartialEq, Eq)]
pub enum StandardFilterableTriggeringRule {
    /// Derivatives must be taken in uniform control flow: `derivative_uniformity`.
    DerivativeUniformity,
}

/// A rule whose diagnostics can be filtered.
#[derive(Debug, Drop, PartialEq, Eq)]
pub enum FilterableTriggeringRule {
    /// One of the WGSL standard.
    Standard(StandardFilterableTriggeringRule),
    /// One with a name that nobody knows.
    Unknown(String),
    /// One of a tool, with the tool's name and its own: `tool.rule`.
    User([String; 2]),
}

/// How bad the diagnostics of one rule are: `diagnostic(off, derivative_uniformity);`.
#[derive(Debug, Drop, PartialEq, Eq)]
pub struct DiagnosticFilter {
    /// How bad they are.
    pub new_severity: Severity,
    /// The rule that triggers them.
    pub triggering_rule: FilterableTriggeringRule,
}

/// The mark of [`DiagnosticFilterNode`] in a handle.
pub enum DiagnosticFilterNodeMark {}

impl Item for DiagnosticFilterNode {
    type Mark = DiagnosticFilterNodeMark;
}

/// A filter, with the filters that hold beside it where it does.
#[derive(Debug, Drop)]
pub struct DiagnosticFilterNode {
    /// The filter.
    pub inner: DiagnosticFilter,
    /// The node of the filter that stands before it, if there is one.
    pub parent: Option<Handle<DiagnosticFilterNode>>,
}
