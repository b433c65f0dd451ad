//! Statements that ask for something or call a function, and barriers.

ghost use Rattle.std.specs.Prelude.{◌≡◌, ◌<◌, ℕ, Bool, IsTrue, Some, length, true};
ghost use Rattle.std.specs.Option.{is_some, option_to_list};
ghost use Rattle.module_semantics.specs.OperatorTable.{AtomicChange, Collective, CooperativeStore};
ghost use Rattle.module_semantics.specs.OperatorTable.{FromSubgroup, QuadSwapped, TexelChange};
ghost use Rattle.module_semantics.specs.OperatorTable.{collective_word, run_word};
ghost use Rattle.module_semantics.specs.OperatorTable.{texel_change_word};
ghost use Rattle.module_semantics.specs.StatementShapes.{change_of, source_of};
ghost use Rattle.naga_ir.specs.Operands.{own_operands, own_result};
ghost use Rattle.naga_ir.specs.declared.operators.CollectiveOperation.TheVariants as collective;
ghost use Rattle.naga_ir.specs.StatementTree.{simple, store};
ghost use Rattle.naga_ir.specs.StatementViews.{tree_of};
ghost use Rattle.naga_scope.specs.Changes.{statement_changes};
ghost use Rattle.naga_scope.specs.Log.{Extends};
ghost use Rattle.naga_words.specs.Output.{Writes};
ghost use Rattle.naga_wgsl_fns.specs.Expressions.{operands_left};
ghost use Rattle.naga_wgsl_fns.specs.FunctionText.{AreInText, CanWrite, CanWriteStatement, IsLet};
ghost use Rattle.naga_wgsl_fns.specs.FunctionText.{handles_in};
ghost use Rattle.naga_wgsl_fns.specs.BodyStates.{HasScope, PassesStatement, text_at};
ghost use Rattle.naga_wgsl_fns.specs.Statements.{act_text, act_word, after_statement, is_act};
ghost use Rattle.naga_wgsl_fns.specs.Statements.{barriers_text, barrier_text};
ghost use Rattle.naga_wgsl_fns.specs.Statements.{outcome_text, statement_text};

use crate::functions::FunctionText;
use crate::lines::BodyState;
use crate::names::write_numbered_name;
use bitflags::Flags;
use naga_ir::{
    AtomicFunction, Barrier, CollectiveOperation, Direction, Expression, GatherMode, Handle,
    Statement, SubgroupOperation,
};
use naga_scope::Scope;
use naga_words::{Output, TextSink};

impl FunctionText<'_> {
    /// A statement that asks for something, or calls a function. After the call, the scope is that
    /// after it.
    pub(crate) fn write_act<W: TextSink>(
        &self,
        statement: &Statement,
        at: &mut BodyState,
        out: &mut Output<'_, W>,
    )
        requires can { CanWrite self.now }
        requires act { IsTrue (is_act (tree_of statement.now)) }
        requires statement { CanWriteStatement self.now (tree_of statement.now) }
        requires scope { HasScope self.now at.old.scope (statement_changes (tree_of statement.now)) }
        ensures text { Writes W.text W.failures out.old out.new
            (text_at self.now at.old.scope statement_text at.old.indent (tree_of statement.now)) }
        ensures passed { PassesStatement self.now at.old at.new (tree_of statement.now) }
        ensures after { handles_in self.now at.new.scope.table
            ≡ after_statement self.now at.old.scope.named (tree_of statement.now)
            (handles_in self.now at.old.scope.table) }
        ensures kept { Extends at.old.scope at.new.scope }
    {
        let word = self.act_str(statement);
        self.write_act_line(word, statement, at, out);
        if let Some(outcome) = statement.result() {
            at.scope.introduce(outcome);
        }
    }

    /// A word that is called with the operands of a statement, and where the statement has a
    /// result, a `let` of that.
    pub(crate) fn write_act_line<W: TextSink>(
        &self,
        word: &str,
        statement: &Statement,
        at: &BodyState,
        out: &mut Output<'_, W>,
    )
        requires can { CanWrite self.now }
        requires statement { CanWriteStatement self.now (tree_of statement.now) }
        requires operands { AreInText self.now (own_operands (tree_of statement.now)) }
        ensures { Writes W.text W.failures out.old out.new (act_text self.now
            (handles_in self.now at.now.scope.table) at.now.indent word.now
            (own_operands (tree_of statement.now)) (own_result (tree_of statement.now))) }
    {
        out.put(at.indent.as_str());
        self.write_outcome(statement.result(), out);
        out.put(word);
        out.put("(");
        self.write_act_operands(statement, &at.scope, out);
        out.put(";\n");
    }

    /// What stands in front of the word of a statement that has a result.
    fn write_outcome<W: TextSink>(
        &self,
        outcome: Option<Handle<Expression>>,
        out: &mut Output<'_, W>,
    )
        requires can { CanWrite self.now }
        requires outcome { (h : ℕ) → outcome ≡ Some h →
            (h < length self.now.function.now.expressions) × IsLet self.now h }
        ensures { Writes W.text W.failures out.old out.new (outcome_text self.now outcome) }
    {
        match outcome {
            Some(outcome) => self.write_outcome_start(outcome, out),
            None => {}
        }
    }

    #[tactic(auto, using(naga_words::proofs::Writing::writes_then, crate::proofs::ActRows::outcome_row))]
    fn write_outcome_start<W: TextSink>(&self, outcome: Handle<Expression>, out: &mut Output<'_, W>)
        requires can { CanWrite self.now }
        requires outcome { outcome < length self.now.function.now.expressions }
        requires named { IsLet self.now outcome }
        ensures { Writes W.text W.failures out.old out.new (outcome_text self.now (Some outcome)) }
    {
        out.put("let ");
        write_numbered_name(outcome, out);
        self.write_let_annotation(outcome, out);
        out.put(" = ");
    }

    /// The operands of a statement, up to the `)` after them.
    fn write_act_operands<W: TextSink>(
        &self,
        statement: &Statement,
        scope: &Scope,
        out: &mut Output<'_, W>,
    )
        requires can { CanWrite self.now }
        requires operands { AreInText self.now (own_operands (tree_of statement.now)) }
        ensures { Writes W.text W.failures out.old out.new
            (operands_left self.now scope.now.table true (own_operands (tree_of statement.now))) }
    {
        let mut is_first = true;
        for operand in statement.operands() {
            self.write_next_operand(scope, is_first, operand, out);
            is_first = false;
        }
        out.put(")");
    }

    /// The word of a statement that asks for something, or the name of the function that it calls.
    fn act_str(&self, statement: &Statement) -> &str
        requires can { CanWrite self.now }
        requires act { IsTrue (is_act (tree_of statement.now)) }
        requires statement { CanWriteStatement self.now (tree_of statement.now) }
        ensures { result.now ≡ act_word self.now (tree_of statement.now) }
    {
        match statement {
            Statement::ImageStore { .. } => "textureStore",
            Statement::Atomic { fun, .. } => atomic_str(*fun),
            Statement::ImageAtomic { fun, .. } => image_atomic_str(*fun),
            Statement::WorkGroupUniformLoad { .. } => "workgroupUniformLoad",
            Statement::Call { function, .. } => self.callee_str(*function),
            Statement::SubgroupBallot { .. } => "subgroupBallot",
            Statement::SubgroupGather { mode, .. } => gather_str(*mode),
            Statement::SubgroupCollectiveOperation {
                op,
                collective_op,
                ..
            } => collective_str(*op, *collective_op),
            Statement::CooperativeStore { data_, .. } => matrix_store_str(data_.row_major),
            Statement::RayPipelineFunction(_) => "traceRay",
            _ => unreachable!(),
        }
    }
}

/// The word of a change of an atomic.
fn atomic_str(fun: AtomicFunction) -> &'static str
    ensures { result.now ≡ run_word (AtomicChange (change_of fun)) }
{
    match fun {
        AtomicFunction::Add => "atomicAdd",
        AtomicFunction::Subtract => "atomicSub",
        AtomicFunction::And => "atomicAnd",
        AtomicFunction::ExclusiveOr => "atomicXor",
        AtomicFunction::InclusiveOr => "atomicOr",
        AtomicFunction::Min => "atomicMin",
        AtomicFunction::Max => "atomicMax",
        AtomicFunction::Exchange { compare: None } => "atomicExchange",
        AtomicFunction::Exchange { compare: Some(_) } => "atomicCompareExchangeWeak",
    }
}

/// The word of a change of a texel, which is never compared.
fn image_atomic_str(fun: AtomicFunction) -> &'static str
    requires { IsTrue (is_some (texel_change_word (change_of fun))) }
    ensures { (arrayed : Bool) → result.now ≡ run_word (TexelChange (change_of fun) arrayed) }
{
    match fun {
        AtomicFunction::Add => "textureAtomicAdd",
        AtomicFunction::Subtract => "textureAtomicSub",
        AtomicFunction::And => "textureAtomicAnd",
        AtomicFunction::ExclusiveOr => "textureAtomicXor",
        AtomicFunction::InclusiveOr => "textureAtomicOr",
        AtomicFunction::Min => "textureAtomicMin",
        AtomicFunction::Max => "textureAtomicMax",
        AtomicFunction::Exchange { compare: None } => "textureAtomicExchange",
        AtomicFunction::Exchange { compare: Some(_) } => unreachable!(),
    }
}

/// The word by which a value comes from another invocation.
fn gather_str(mode: GatherMode) -> &'static str
    ensures { result.now ≡ run_word (FromSubgroup (source_of mode)) }
{
    match mode {
        GatherMode::BroadcastFirst => "subgroupBroadcastFirst",
        GatherMode::Broadcast(_) => "subgroupBroadcast",
        GatherMode::Shuffle(_) => "subgroupShuffle",
        GatherMode::ShuffleDown(_) => "subgroupShuffleDown",
        GatherMode::ShuffleUp(_) => "subgroupShuffleUp",
        GatherMode::ShuffleXor(_) => "subgroupShuffleXor",
        GatherMode::QuadBroadcast(_) => "quadBroadcast",
        GatherMode::QuadSwap(direction) => swap_str(direction),
    }
}

fn swap_str(direction: Direction) -> &'static str
    ensures { result.now ≡ run_word (FromSubgroup (QuadSwapped direction)) }
{
    match direction {
        Direction::X => "quadSwapX",
        Direction::Y => "quadSwapY",
        Direction::Diagonal => "quadSwapDiagonal",
    }
}

/// The word of what is computed from the values of a subgroup's invocations: of all, or of a scan
/// that has one.
fn collective_str(op: SubgroupOperation, collective_op: CollectiveOperation) -> &'static str
    requires { IsTrue (is_some (collective_word op collective_op)) }
    ensures { result.now ≡ run_word (Collective op collective_op) }
{
    match collective_op {
        CollectiveOperation::Reduce => reduction_str(op),
        CollectiveOperation::InclusiveScan => match op {
            SubgroupOperation::Add => "subgroupInclusiveAdd",
            SubgroupOperation::Mul => "subgroupInclusiveMul",
            _ => unreachable!(),
        },
        CollectiveOperation::ExclusiveScan => match op {
            SubgroupOperation::Add => "subgroupExclusiveAdd",
            SubgroupOperation::Mul => "subgroupExclusiveMul",
            _ => unreachable!(),
        },
    }
}

fn reduction_str(op: SubgroupOperation) -> &'static str
    ensures { result.now ≡ run_word (Collective op collective.Reduce) }
{
    match op {
        SubgroupOperation::All => "subgroupAll",
        SubgroupOperation::Any => "subgroupAny",
        SubgroupOperation::Add => "subgroupAdd",
        SubgroupOperation::Mul => "subgroupMul",
        SubgroupOperation::Min => "subgroupMin",
        SubgroupOperation::Max => "subgroupMax",
        SubgroupOperation::And => "subgroupAnd",
        SubgroupOperation::Or => "subgroupOr",
        SubgroupOperation::Xor => "subgroupXor",
    }
}

/// The word of a store of a cooperative matrix, by rows or by columns.
fn matrix_store_str(row_major: bool) -> &'static str
    ensures { result.now ≡ run_word (CooperativeStore row_major) }
{
    if row_major { "coopStoreT" } else { "coopStore" }
}

/// A barrier: a line for each kind of access that it keeps apart.
#[tactic(auto, using(naga_words::proofs::Writing::writes_then, crate::proofs::ActRows::barriers_row))]
pub(crate) fn write_barrier<W: TextSink>(barrier: Barrier, at: &BodyState, out: &mut Output<'_, W>)
    ensures { Writes W.text W.failures out.old out.new (barriers_text at.now.indent barrier) }
{
    write_barrier_if(
        barrier.contains(Barrier::STORAGE),
        "storageBarrier();\n",
        at,
        out,
    );
    write_barrier_if(
        barrier.contains(Barrier::WORK_GROUP),
        "workgroupBarrier();\n",
        at,
        out,
    );
    write_barrier_if(
        barrier.contains(Barrier::SUB_GROUP),
        "subgroupBarrier();\n",
        at,
        out,
    );
    write_barrier_if(
        barrier.contains(Barrier::TEXTURE),
        "textureBarrier();\n",
        at,
        out,
    );
}

/// The line of a barrier, where it is of that kind.
#[tactic(auto, using(naga_words::proofs::Writing::writes_nothing), unfolding(crate::specs::Statements::barrier_text))]
fn write_barrier_if<W: TextSink>(is_set: bool, line: &str, at: &BodyState, out: &mut Output<'_, W>)
    ensures { Writes W.text W.failures out.old out.new (barrier_text at.now.indent is_set line.now) }
{
    if is_set {
        at.write_start(line, out);
    }
}
