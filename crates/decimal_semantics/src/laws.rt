//! What is proved of modules with decimal floats.

ghost use Rattle.std.specs.Prelude.{◌≡◌};
ghost use Rattle.naga_ir.specs.declared.module.Module.{Module};
ghost use Rattle.naga_back.specs.declared.flags.WriterFlags.{WriterFlags};
ghost use Rattle.naga_info.specs.declared.info.ModuleInfo.{ModuleInfo};
ghost use Rattle.wgsl_text.specs.Declarations.{Program};
ghost use Rattle.module_semantics.specs.Faithful.{HasInterfaceOf, RunsAs};
ghost use Rattle.module_semantics.specs.ModuleShapes.{module_shape};
ghost use Rattle.module_semantics.specs.Names.{module_names};
ghost use Rattle.decimal_floats.specs.Decimals.{IsDecimalModule};

/// A module with decimal floats has the names and the program of shapes that it had.
pub fn decimal_modules_have_their_shapes()
    ensures names { (old new : Module) → IsDecimalModule old new →
        module_names new ≡ module_names old }
    ensures shapes { (old new : Module) → IsDecimalModule old new → (info : ModuleInfo) →
        module_shape new info ≡ module_shape old info }
{}

/// What is faithful to a module with decimal floats is faithful to the module as it was: a program
/// that has the interface and the runs of the one has those of the other.
pub fn programs_are_faithful_to_both()
    ensures interface { (old new : Module) → IsDecimalModule old new → (info : ModuleInfo)
        (flags : WriterFlags) (program : Program) → HasInterfaceOf new info flags program →
        HasInterfaceOf old info flags program }
    ensures runs { (old new : Module) → IsDecimalModule old new → (info : ModuleInfo)
        (program : Program) → RunsAs new info program → RunsAs old info program }
{}
