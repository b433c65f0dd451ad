//! Why a module is not written, as it is shown.
use naga_wgsl_out::types::SinkError;
use naga_wgsl_out::wgsl::Error;
use std::alloc::AllocError;

#[test]
fn failures_and_want_of_memory_are_shown(rt: HostRuntime) {
    let alloc = rt.alloc();
    let failed = Error::from(SinkError::Failed);
    let full = Error::from(SinkError::Memory(AllocError));
    assert!(rt; matches!(&full, Error::Memory(_)));
    let shown = format!(in alloc; "{failed} {failed:?} {full}").expect(&rt, "memory");
    assert_eq!(rt;
        shown.as_str(),
        "sink failed FmtError(Failed) out of memory"
    );
}
