//! WGSL's words for diagnostics: how bad one is, and which rule it comes from.
//!
//! What stands in `diagnostic(off, derivative_uniformity);` is read and told so:
//!
//! ```text
//! let severity = Severity::from_wgsl_ident("off"); // Some(Severity::Off)
//! let rule = StandardFilterableTriggeringRule::DerivativeUniformity;
//! let word = rule.to_wgsl_ident(); // derivative_uniformity
//! let filtered = FilterableTriggeringRule::Standard(rule);
//! let text = filtered.display_wgsl_ident().to_string(alloc)?; // derivative_uniformity
//! ```

ghost use Rattle.std.specs.Prelude.{◌≡◌, ℕ, List, Option, Some};
ghost use Rattle.naga_ir.specs.declared.diagnostics.FilterableTriggeringRule as filterable;
ghost use Rattle.naga_words.specs.Diagnostics.{DetermineEachOther, rule_name, severity_of};
ghost use Rattle.naga_words.specs.Diagnostics.{severity_word, standard_rule_of, standard_word};

use naga_ir::{FilterableTriggeringRule, Severity, StandardFilterableTriggeringRule};
use std::fmt;

/// Values that are read from a word of WGSL.
pub trait FromWgslIdent: Sized {
    /// The value of a word, if it has one.
    ghost value_of: { List ℕ → Option Self };

    /// The value that has this word, if there is one. Letters count in their case: `off` is the
    /// word of [`Severity::Off`], `Off` of nothing.
    fn from_wgsl_ident(s: &str) -> Option<Self>
        ensures { result ≡ value_of s.now };
}

impl FromWgslIdent for Severity {
    ghost value_of = { severity_of };

    fn from_wgsl_ident(s: &str) -> Option<Self> {
        match s {
            "off" => Some(Severity::Off),
            "info" => Some(Severity::Info),
            "warning" => Some(Severity::Warning),
            "error" => Some(Severity::Error),
            _ => None,
        }
    }
}

impl FromWgslIdent for StandardFilterableTriggeringRule {
    ghost value_of = { standard_rule_of };

    fn from_wgsl_ident(s: &str) -> Option<Self> {
        match s {
            "derivative_uniformity" => Some(StandardFilterableTriggeringRule::DerivativeUniformity),
            _ => None,
        }
    }
}

/// Values that each have a word of WGSL, from which they are read.
pub trait ToWgslIdent {
    /// The word of a value.
    ghost word: { Self → List ℕ };

    /// WGSL's word for the value.
    fn to_wgsl_ident(self) -> &'static str
        ensures { result.now ≡ word self };
}

impl ToWgslIdent for StandardFilterableTriggeringRule {
    ghost word = { standard_word };

    fn to_wgsl_ident(self) -> &'static str {
        match self {
            StandardFilterableTriggeringRule::DerivativeUniformity => "derivative_uniformity",
        }
    }
}

/// Rules that are shown under their name in WGSL.
pub trait DisplayWgslIdent {
    /// The rule that is shown.
    ghost shown: { Self → filterable.FilterableTriggeringRule };

    /// The rule, to be shown under its name: that of a tool's rule with the parts `a` and `b` is
    /// `a.b`.
    fn display_wgsl_ident(&self) -> DisplayFilterableTriggeringRule<'_>
        ensures { result.0.now ≡ shown self.now };
}

/// A rule, shown under its name in WGSL: `derivative_uniformity`, or `tool.rule` for a tool's.
#[derive(Clone, Copy)]
pub struct DisplayFilterableTriggeringRule<'a>(&'a FilterableTriggeringRule);

impl DisplayWgslIdent for FilterableTriggeringRule {
    ghost shown = { λ rule. rule };

    fn display_wgsl_ident(&self) -> DisplayFilterableTriggeringRule<'_> {
        DisplayFilterableTriggeringRule(self)
    }
}

impl<'a> fmt::Display for DisplayFilterableTriggeringRule<'a> {
    ghost output = { λ d. Some (rule_name d.0.now) };

    fn fmt<W: fmt::Write>(&self, f: &mut fmt::Formatter<W>) -> fmt::Result {
        match self.0 {
            FilterableTriggeringRule::Standard(rule) => f.write_str(rule.to_wgsl_ident()),
            FilterableTriggeringRule::Unknown(name) => f.write_str(name.as_str()),
            FilterableTriggeringRule::User([tool, rule]) => {
                f.write_str(tool.as_str())?;
                f.write_str(".")?;
                f.write_str(rule.as_str())
            }
        }
    }
}

/// A word and its severity determine each other, and so do a word and its rule of the standard.
pub fn words_determine_values()
    ensures severities { DetermineEachOther severity_word severity_of }
    ensures rules { DetermineEachOther standard_word standard_rule_of }
{}
