//! What the writer leaves in sinks that refuse a chunk.

ghost use Rattle.std.specs.Prelude.{◌≡◌, ◌<◌, ◌++◌, IsErrOf, IsTrue, OnErr, OnOk};
ghost use Rattle.module_semantics.specs.acceptance.Accepted.{is_accepted};

use crate::modules::{IDENTITY, read};
use crate::whole_module;
use naga_json::Known;
use naga_wgsl_out::sinks::Limited;
use naga_wgsl_out::types::{SinkError, TextSink};
use naga_wgsl_out::wgsl::{Error, Writer, WriterFlags, no_flags, write_string};
use std::alloc::{AllocError, Global};
use std::process::Abort;

/// A text that refuses once what would take it past its limit, and tells it as a failure or as
/// want of memory.
#[derive(Drop)]
struct Refusing {
    limited: Limited,
    refusal: SinkError,
}

impl TextSink for Refusing {
    ghost text = { λ s. s.limited.text };

    ghost failures = { λ s. s.limited.failures };

    fn write_str(&mut self, chunk: &str) -> Result<(), SinkError>
        ensures text_ok { OnOk result
            (self.new.limited.text ≡ self.old.limited.text ++ chunk.now) }
        ensures text_err { OnErr result (self.new.limited.text ≡ self.old.limited.text) }
        ensures failures_ok { OnOk result
            (self.new.limited.failures ≡ self.old.limited.failures) }
        ensures failed { IsErrOf result SinkError.Failed →
            self.old.limited.failures < self.new.limited.failures }
    {
        match self.limited.write_str(chunk) {
            Err(SinkError::Failed) => Err(self.refusal),
            answer => answer,
        }
    }
}

/// The refusal of a sink that a call of the writer tells, if it tells one.
fn refusal_of(rt: &impl Abort, written: &Result<(), Error>) -> Option<SinkError> {
    match written {
        Ok(()) => None,
        Err(Error::FmtError(refusal)) => Some(*refusal),
        Err(Error::Memory(error)) => Some(SinkError::Memory(*error)),
        Err(error) => panic!(rt; "{error}"),
    }
}

/// Whether the text stands there, after a beginning of it with no more bytes than this.
fn is_begun_and_whole(held: &str, text: &str, limit: usize) -> bool {
    match held.strip_suffix(text) {
        Some(begun) => begun.len() <= limit && text.starts_with(begun),
        None => false,
    }
}

/// A module is written twice to a sink that refuses the first chunk past its limit. The call that
/// comes to it tells so and leaves a beginning of the text, and the other writes the whole.
fn refuses_once(
    rt: &impl Abort,
    alloc: Global,
    known: &Known,
    flags: WriterFlags,
    text: &str,
    limit: usize,
    refusal: SinkError,
)
    requires { IsTrue (is_accepted known.now.module known.now.info) }
{
    let limited = Limited::new(alloc, limit);
    let mut writer = Writer::new(alloc, Refusing { limited, refusal }, flags);
    let first = refusal_of(rt, &writer.write(&known.module, &known.info));
    let second = refusal_of(rt, &writer.write(&known.module, &known.info));
    let sink = writer.finish();
    let wanted = if limit < text.len() {
        (Some(refusal), None)
    } else {
        (None, Some(refusal))
    };
    assert_eq!(rt; (first, second), wanted, "with room for {limit} bytes");
    assert!(rt;
        is_begun_and_whole(sink.limited.text(), text, limit),
        "with room for {limit} bytes"
    );
}

/// Each limit up to the length of the text.
fn refuses_at_each_limit(
    rt: &impl Abort,
    alloc: Global,
    known: &Known,
    flags: WriterFlags,
    refusal: SinkError,
)
    requires { IsTrue (is_accepted known.now.module known.now.info) }
{
    let whole = write_string(alloc, &known.module, &known.info, flags).expect(rt, "a text");
    let text = whole.as_str();
    for limit in 0..=text.len() {
        refuses_once(rt, alloc, known, flags, text, limit, refusal);
    }
}

/// Two modules, with each setting of the flags.
fn modules_are_refused(rt: &impl Abort, alloc: Global, refusal: SinkError) {
    for text in [IDENTITY, whole_module::MODULE] {
        let known = read(rt, alloc, text);
        refuses_at_each_limit(rt, alloc, &known, no_flags(), refusal);
        refuses_at_each_limit(rt, alloc, &known, WriterFlags::EXPLICIT_TYPES, refusal);
    }
}

#[test]
fn failures_of_sinks_are_told(rt: HostRuntime) {
    modules_are_refused(&rt, rt.alloc(), SinkError::Failed);
}

#[test]
fn want_of_memory_in_sinks_is_told(rt: HostRuntime) {
    modules_are_refused(&rt, rt.alloc(), SinkError::Memory(AllocError));
}
