//! The stage of an entry entry_point, by its attributes.

ghost use Rattle.std.specs.Prelude.{◌++◌, ◌<◌, IsTrue, codes, length};
ghost use Rattle.std.specs.Option.{is_some, option_map};
ghost use Rattle.module_semantics.specs.DeclarationForms.{stage_has_form};
ghost use Rattle.module_semantics.specs.Names.{global_name, module_names};
ghost use Rattle.module_semantics.specs.WorkgroupSizes.{size_part};
ghost use Rattle.module_semantics.specs.acceptance.Ranges.{is_below};
ghost use Rattle.naga_form.specs.Attributes.{stage_attributes};
ghost use Rattle.naga_ir.specs.declared.module.ShaderStage.TheVariants as stage;
ghost use Rattle.naga_words.specs.Output.{Writes};
ghost use Rattle.naga_wgsl_shared.specs.Attributes.{attributes_text, worded_text};
ghost use Rattle.naga_wgsl_shared.specs.ModuleText.{CanWriteIn};
ghost use Rattle.naga_wgsl_shared.specs.Stages.{StageIsThere, hit_text, output_text};
ghost use Rattle.naga_wgsl_shared.specs.Stages.{own_size_text, part_text, stage_text, variable_text};

use crate::literal::write_number;
use crate::module_text::ModuleText;
use naga_ir::{EntryPoint, GlobalVariable, Handle, MeshStageInfo, Override, ShaderStage};
use naga_naming::NameKey;
use naga_words::{Output, TextSink};

impl ModuleText<'_> {
    /// The attributes of an entry entry_point's stage, each with one blank after it, and the line end
    /// after them: `@compute @workgroup_size(8, 8, 1) `.
    #[tactic(auto, using(naga_words::proofs::Writing::writes_then, crate::proofs::StageRows::stage_row))]
    pub fn write_stage<W: TextSink>(&self, entry_point: &EntryPoint, out: &mut Output<'_, W>)
        requires can { CanWriteIn self.now }
        requires there { StageIsThere self.now.shader.now entry_point.now }
        requires formed { IsTrue (stage_has_form entry_point.now entry_point.now.stage) }
        ensures { Writes W.text W.failures out.old out.new
            (stage_text self.now.shader.now entry_point.now) }
    {
        self.write_stage_attributes(entry_point, out);
        out.put("\n");
    }

    fn write_stage_attributes<W: TextSink>(&self, entry_point: &EntryPoint, out: &mut Output<'_, W>)
        requires can { CanWriteIn self.now }
        requires there { StageIsThere self.now.shader.now entry_point.now }
        requires formed { IsTrue (stage_has_form entry_point.now entry_point.now.stage) }
        ensures { Writes W.text W.failures out.old out.new (attributes_text
            (stage_attributes (module_names self.now.shader.now) entry_point.now entry_point.now.stage)) }
    {
        match entry_point.stage {
            ShaderStage::Vertex => out.put("@vertex "),
            ShaderStage::Fragment => out.put("@fragment "),
            ShaderStage::Compute => self.write_compute(entry_point, out),
            ShaderStage::Mesh => self.write_mesh(entry_point, out),
            ShaderStage::Task => self.write_task(entry_point, out),
            ShaderStage::RayGeneration => out.put("@ray_generation "),
            ShaderStage::AnyHit => self.write_hit(
                "@any_hit ",
                entry_point.incoming_ray_payload,
                out,
            ),
            ShaderStage::ClosestHit => {
                self.write_hit("@closest_hit ", entry_point.incoming_ray_payload, out)
            }
            ShaderStage::Miss => self.write_hit("@miss ", entry_point.incoming_ray_payload, out),
        }
    }

    fn write_compute<W: TextSink>(&self, entry_point: &EntryPoint, out: &mut Output<'_, W>)
        requires can { CanWriteIn self.now }
        requires there { StageIsThere self.now.shader.now entry_point.now }
        ensures { Writes W.text W.failures out.old out.new (attributes_text
            (stage_attributes (module_names self.now.shader.now) entry_point.now stage.Compute)) }
    {
        out.put("@compute ");
        self.write_sizes(entry_point, out);
    }

    /// A mesh stage has an output, and may have a payload.
    fn write_mesh<W: TextSink>(&self, entry_point: &EntryPoint, out: &mut Output<'_, W>)
        requires can { CanWriteIn self.now }
        requires there { StageIsThere self.now.shader.now entry_point.now }
        requires formed { IsTrue (is_some entry_point.now.mesh_info) }
        ensures { Writes W.text W.failures out.old out.new (attributes_text
            (stage_attributes (module_names self.now.shader.now) entry_point.now stage.Mesh)) }
    {
        self.write_output(entry_point.mesh_info, out);
        self.write_sizes(entry_point, out);
        self.write_payload(entry_point.task_payload, out);
    }

    fn write_task<W: TextSink>(&self, entry_point: &EntryPoint, out: &mut Output<'_, W>)
        requires can { CanWriteIn self.now }
        requires there { StageIsThere self.now.shader.now entry_point.now }
        requires formed { IsTrue (is_some entry_point.now.task_payload) }
        ensures { Writes W.text W.failures out.old out.new (attributes_text
            (stage_attributes (module_names self.now.shader.now) entry_point.now stage.Task)) }
    {
        out.put("@task ");
        self.write_needed("@payload(", entry_point.task_payload, out);
        self.write_sizes(entry_point, out);
    }

    /// How many invocations a workgroup has along each axis: `@workgroup_size(W, 4, 1) `.
    fn write_sizes<W: TextSink>(&self, entry_point: &EntryPoint, out: &mut Output<'_, W>)
        requires can { CanWriteIn self.now }
        requires there { StageIsThere self.now.shader.now entry_point.now }
        ensures { Writes W.text W.failures out.old out.new
            (own_size_text self.now.shader.now entry_point.now) }
    {
        let [x, y, z] = entry_point.workgroup_size;
        let [sets_x, sets_y, sets_z] = &entry_point.workgroup_size_overrides;
        out.put("@workgroup_size(");
        self.write_size(x, *sets_x, ", ", out);
        self.write_size(y, *sets_y, ", ", out);
        self.write_size(z, *sets_z, ") ", out);
    }

    /// So many along one axis, or the override that sets it, and what stands after it.
    fn write_size<W: TextSink>(
        &self,
        number: u32,
        setting: Option<Handle<Override>>,
        suffix: &str,
        out: &mut Output<'_, W>,
    )
        requires can { CanWriteIn self.now }
        requires there { IsTrue (is_below (length self.now.shader.now.overrides) setting) }
        ensures { Writes W.text W.failures out.old out.new
            (part_text (size_part (module_names self.now.shader.now) number setting)
            ++ suffix.now) }
    {
        match setting {
            Some(handle) => {
                self.write_override_name(handle, out);
                out.put(suffix);
            }
            None => write_number(number, suffix, out),
        }
    }

    /// A stage that answers a ray, which came with a payload.
    fn write_hit<W: TextSink>(
        &self,
        stage: &str,
        payload: Option<Handle<GlobalVariable>>,
        out: &mut Output<'_, W>,
    )
        requires can { CanWriteIn self.now }
        requires there { IsTrue (is_below (length self.now.shader.now.global_variables) payload) }
        requires formed { IsTrue (is_some payload) }
        ensures { Writes W.text W.failures out.old out.new
            (hit_text self.now.shader.now stage.now payload) }
    {
        out.put(stage);
        self.write_needed("@incoming_payload(", payload, out);
    }

    /// The variable of a mesh stage's output.
    fn write_output<W: TextSink>(&self, output: Option<MeshStageInfo>, out: &mut Output<'_, W>)
        requires can { CanWriteIn self.now }
        requires there { IsTrue (is_below (length self.now.shader.now.global_variables)
            (option_map (λ k. k.output_variable) output)) }
        requires formed { IsTrue (is_some output) }
        ensures { Writes W.text W.failures out.old out.new
            (output_text self.now.shader.now output) }
    {
        match output {
            Some(output) => self.write_variable("@mesh(", output.output_variable, out),
            None => unreachable!(),
        }
    }

    /// The variable of a payload, if there is one.
    #[tactic(auto, using(naga_words::proofs::Writing::writes_nothing), unfolding(crate::specs::Stages::variable_text))]
    fn write_payload<W: TextSink>(
        &self,
        payload: Option<Handle<GlobalVariable>>,
        out: &mut Output<'_, W>,
    )
        requires can { CanWriteIn self.now }
        requires there { IsTrue (is_below (length self.now.shader.now.global_variables) payload) }
        ensures { Writes W.text W.failures out.old out.new
            (variable_text self.now.shader.now (codes "@payload(") payload) }
    {
        match payload {
            Some(payload) => self.write_variable("@payload(", payload, out),
            None => {}
        }
    }

    /// An attribute with a variable, which the stage has.
    #[tactic(auto, unfolding(crate::specs::Stages::variable_text))]
    fn write_needed<W: TextSink>(
        &self,
        front: &str,
        variable: Option<Handle<GlobalVariable>>,
        out: &mut Output<'_, W>,
    )
        requires can { CanWriteIn self.now }
        requires there { IsTrue (is_below (length self.now.shader.now.global_variables) variable) }
        requires formed { IsTrue (is_some variable) }
        ensures { Writes W.text W.failures out.old out.new
            (variable_text self.now.shader.now front.now variable) }
    {
        match variable {
            Some(variable) => self.write_variable(front, variable, out),
            None => unreachable!(),
        }
    }

    /// An attribute with a variable.
    #[tactic(auto, using(naga_words::proofs::Writing::writes_then, crate::proofs::AttributeRows::worded_parts))]
    fn write_variable<W: TextSink>(
        &self,
        front: &str,
        variable: Handle<GlobalVariable>,
        out: &mut Output<'_, W>,
    )
        requires can { CanWriteIn self.now }
        requires there { variable < length self.now.shader.now.global_variables }
        ensures { Writes W.text W.failures out.old out.new (worded_text front.now
            (global_name (module_names self.now.shader.now) variable)) }
    {
        out.put(front);
        self.write_name(&NameKey::GlobalVariable(variable), out);
        out.put(") ");
    }
}
