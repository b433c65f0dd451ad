//! Laws of texts and of refusals, each on a function that does nothing: its contract says the law.
ghost use Rattle.naga_wgsl_out.specs.FirstRefusals.{FirstRefusalsAreAtOnePosition, RefusalsRefuse};
ghost use Rattle.naga_wgsl_out.specs.Writing.{TextsAreEqual};

/// Two calls of [`Writer::write`](crate::wgsl::Writer::write) that answer `Ok` append equal texts
/// where module, infos and flags are the same, whatever the writers wrote or refused before.
pub fn texts_are_equal()
    ensures { TextsAreEqual }
{}

/// Where a construct stands for which a module is refused, `NothingIsRefused` does not hold. So
/// [`unwritable`](crate::wgsl::unwritable) answers `None` exactly where none stands.
pub fn refusals_refuse()
    ensures { RefusalsRefuse }
{}

/// All constructs that are the first for which a module is refused stand at one position. So the
/// position that [`unwritable`](crate::wgsl::unwritable) gives is that of the construct which the
/// error of [`Writer::write`](crate::wgsl::Writer::write) names.
pub fn first_refusals_are_at_one_position()
    ensures { FirstRefusalsAreAtOnePosition }
{}
