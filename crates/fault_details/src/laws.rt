//! What is proved of reasons.

ghost use Rattle.fault_details.specs.Holds.{ReasonsHold};
ghost use Rattle.fault_details.specs.OtherUses.{OtherUsesStandBefore};
ghost use Rattle.fault_details.specs.Told.{TypesAreToldApart};
ghost use Rattle.fault_details.specs.WithReason.{NameFaultsHaveReasons, TypeFaultsHaveReasons};

/// Each reason that [`explain`](crate::explain) tells is one, whatever fault it is asked of: of two
/// types, also of two uses of an operator, they are not alike; of a class or a letter, the type has
/// it not; of an item, its number is not below how many there are, or not below that of the item
/// before which it is to stand; of numbers, they differ. Of a value that is not there or not expected,
/// and of what a statement needs, this says nothing.
pub fn reasons_hold()
    ensures { ReasonsHold }
{}

/// Each fault of types has a reason, where all that the module names is there and no body has more
/// than 2^64 statements: an expression has another type than what it stands for, or takes no
/// operands of these types; an initialiser has another type; a statement does not get what it
/// needs; an operator does not agree with an earlier one.
/// [`unaccepted`](naga_acceptance::unaccepted) tells such a fault only where all that is named is
/// there, so that [`explain`](crate::explain) tells a reason of each.
pub fn type_faults_have_reasons()
    ensures { TypeFaultsHaveReasons }
{}

/// Each fault of what is named has a reason, where no body has more than 2^64 statements and each
/// number is one of its type: not as many things are known as there are; a type, an item, an
/// operand or an initialiser is not there, or not before what names it.
pub fn name_faults_have_reasons()
    ensures { NameFaultsHaveReasons }
{}

/// Of an operator that does not agree, where all that the module names is there,
/// [`explain`](crate::explain) tells a use of the same operator over operands of types alike, which
/// stands before and has the type that is told, another than that at the fault.
pub fn other_uses_stand_before()
    ensures { OtherUsesStandBefore }
{}

/// No text tells two types: where [`explain`](crate::explain) tells one that is expected and another
/// that stands there, it tells them by texts that differ.
pub fn types_are_told_apart()
    ensures { TypesAreToldApart }
{}
