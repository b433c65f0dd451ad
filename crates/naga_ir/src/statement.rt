//! Statements, whose blocks hold statements again.

ghost use Rattle.std.specs.Prelude.{◌≡◌, IfOk, OnErr};
ghost use Rattle.std.specs.Slice.Iter.{iter_rest};
ghost use Rattle.naga_ir.specs.StatementTree.{no_statements, statement_count, has_no_statements};
ghost use Rattle.naga_ir.specs.StatementTree.{with_statement};
ghost use Rattle.naga_ir.specs.StatementViews.{tree_of, block_of};

use crate::arena::Handle;
use crate::expression::{CooperativeData, Expression};
use crate::flags::Barrier;
use crate::module::Function;
use crate::operators::{AtomicFunction, CollectiveOperation, GatherMode, SubgroupOperation};
use std::alloc::{AllocError, Global};
use std::marker::Model;
use std::slice::Iter;

/// The handles of expressions from `first` to before `end`.
#[derive(Debug, Clone, Copy, PartialEq, Eq)]
pub struct Range {
    /// The index of the first.
    pub first: usize,
    /// The index after the last.
    pub end: usize,
}

impl Range {
    ghost use Rattle.naga_ir.specs.Ranges.{range_of};

    /// The handles from `first` to `last`, both of them. The greatest `usize`, which no arena's
    /// handle comes near, is left out of any range.
    pub fn new_from_bounds(first: Handle<Expression>, last: Handle<Expression>) -> Self
        ensures { result ≡ range_of first last }
    {
        Range {
            first: first.index(),
            end: last.index().saturating_add(1),
        }
    }
}

/// The value that a case of a switch is for.
#[derive(Debug, Clone, Copy, PartialEq, Eq)]
pub enum SwitchValue {
    /// This one, of a signed selector: `case 1`.
    I32(i32),
    /// This one, of an unsigned selector: `case 1u`.
    U32(u32),
    /// All that no other case is for: `default`.
    Default,
}

/// Sends a ray from an entry point of a ray pipeline.
#[derive(Debug, Clone, Copy, PartialEq, Eq)]
pub enum RayPipelineFunction {
    /// `traceRay(structure, descriptor, payload)`
    TraceRay {
        /// What the ray goes through.
        acceleration_structure: Handle<Expression>,
        /// Where it starts, where it goes, and what it ignores.
        descriptor: Handle<Expression>,
        /// A pointer to what it takes along.
        payload: Handle<Expression>,
    },
}

/// Statements that run one after another.
#[cycle(block)]
#[derive(Debug, Drop)]
pub struct Block {
    body: Vec<Statement>,
}

/// A case of a switch.
#[cycle(block)]
#[derive(Debug, Drop)]
pub struct SwitchCase {
    /// The value that it is for.
    pub value: SwitchValue,
    /// What it does.
    pub body: Block,
    /// Whether the next case's body runs after it. WGSL has this only for cases with an empty body,
    /// whose values it joins: `case 1, 2: {`.
    pub fall_through: bool,
}

/// What a function does, step by step.
#[cycle(block)]
#[derive(Debug, Drop)]
pub enum Statement {
    /// Evaluates the expressions of a range, in order. In WGSL each becomes a `let`, or is written
    /// where it is used.
    Emit(Range),
    /// Statements of their own: `{ .. }`.
    Block(Block),
    /// One of two blocks: `if c { .. } else { .. }`.
    If {
        /// What decides.
        condition: Handle<Expression>,
        /// What is done where that is true.
        accept: Block,
        /// What is done where that is false.
        reject: Block,
    },
    /// One of several blocks: `switch x { .. }`.
    Switch {
        /// What decides.
        selector: Handle<Expression>,
        /// The blocks, with the values that they are for.
        cases: Vec<SwitchCase>,
    },
    /// A block again and again: `loop { .. continuing { .. } }`.
    Loop {
        /// What is done each time.
        body: Block,
        /// What is done after it, and after a `continue` in it.
        continuing: Block,
        /// What ends the loop where it is true at the end of `continuing`: `break if c;`.
        break_if: Option<Handle<Expression>>,
    },
    /// Leaves the nearest loop or switch: `break;`.
    Break,
    /// Goes on with the nearest loop's `continuing`: `continue;`.
    Continue,
    /// Leaves the function: `return x;`.
    Return {
        /// What it returns, if it returns a value.
        value: Option<Handle<Expression>>,
    },
    /// Ends the fragment: `discard;`.
    Kill,
    /// Waits until all invocations of the workgroup have come here, and keeps accesses apart.
    ControlBarrier(Barrier),
    /// Keeps accesses apart.
    MemoryBarrier(Barrier),
    /// Puts a value where a pointer points: `p = x;`.
    Store {
        /// The pointer.
        pointer: Handle<Expression>,
        /// The value.
        value: Handle<Expression>,
    },
    /// Writes a texel: `textureStore`.
    ImageStore {
        /// The image.
        image: Handle<Expression>,
        /// Which texel.
        coordinate: Handle<Expression>,
        /// In which image of an array.
        array_index: Option<Handle<Expression>>,
        /// The texel's new value.
        value: Handle<Expression>,
    },
    /// Changes what a pointer points to, in one step: `atomicAdd(p, x);`.
    Atomic {
        /// The pointer.
        pointer: Handle<Expression>,
        /// How it is changed.
        fun: AtomicFunction,
        /// By what.
        value: Handle<Expression>,
        /// The expression that stands for what was there before.
        result: Option<Handle<Expression>>,
    },
    /// Changes a texel, in one step: `textureAtomicAdd`.
    ImageAtomic {
        /// The image.
        image: Handle<Expression>,
        /// Which texel.
        coordinate: Handle<Expression>,
        /// In which image of an array.
        array_index: Option<Handle<Expression>>,
        /// How it is changed.
        fun: AtomicFunction,
        /// By what.
        value: Handle<Expression>,
    },
    /// Reads a workgroup variable for all invocations alike: `workgroupUniformLoad(p)`.
    WorkGroupUniformLoad {
        /// A pointer to it.
        pointer: Handle<Expression>,
        /// The expression that stands for what was read.
        result: Handle<Expression>,
    },
    /// Calls a function of the module: `f(x, y);`.
    Call {
        /// Which.
        function: Handle<Function>,
        /// Its arguments, in order.
        arguments: Vec<Handle<Expression>>,
        /// The expression that stands for what it returns, where that is used.
        result: Option<Handle<Expression>>,
    },
    /// Does something with a ray query.
    RayQuery {
        /// The query.
        query: Handle<Expression>,
    },
    /// Asks which invocations of the subgroup are true: `subgroupBallot(p)`.
    SubgroupBallot {
        /// The expression that stands for the answer.
        result: Handle<Expression>,
        /// What is asked; absent means that all are.
        predicate: Option<Handle<Expression>>,
    },
    /// Takes a value from other invocations of the subgroup: `subgroupShuffle(x, i)`.
    SubgroupGather {
        /// From which.
        mode: GatherMode,
        /// What each gives.
        argument: Handle<Expression>,
        /// The expression that stands for what each takes.
        result: Handle<Expression>,
    },
    /// Computes a value from those of the subgroup's invocations: `subgroupAdd(x)`.
    SubgroupCollectiveOperation {
        /// What is computed.
        op: SubgroupOperation,
        /// Over which invocations.
        collective_op: CollectiveOperation,
        /// What each gives.
        argument: Handle<Expression>,
        /// The expression that stands for what each gets.
        result: Handle<Expression>,
    },
    /// Writes a cooperative matrix to memory: `coopStore`.
    CooperativeStore {
        /// The matrix.
        target: Handle<Expression>,
        /// Where to.
        data_: CooperativeData,
    },
    /// Sends a ray.
    RayPipelineFunction(RayPipelineFunction),
}

impl Model for Block {
    ghost use Rattle.naga_ir.specs.StatementTree.{BlockTree, block_size};
    ghost use Rattle.naga_ir.specs.StatementCode.{block_coded};

    ghost Value = { BlockTree };

    ghost coded = { block_coded };

    ghost use Rattle.naga_ir.specs.StatementViews.{block_of};

    ghost view = { λ b. block_of b.body.items };

    ghost size = { block_size };

    ghost use Rattle.std.proofs.Common.{arith};
    ghost use Rattle.naga_ir.specs.StatementSizes.{depth_le-block_size};

    ghost size_decreases = { λ b h. omega (arith, depth_le-block_size b.body.items) };
}

impl Block {
    /// A block without statements. It takes no memory.
    pub fn new(alloc: Global) -> Self
        ensures { result ≡ no_statements }
    {
        Block {
            body: Vec::new(alloc),
        }
    }

    /// The block of these statements, in order.
    pub fn from_vec(body: Vec<Statement>) -> Self
        ensures { result ≡ block_of body.items }
    {
        Block { body }
    }

    /// Whether there are no statements.
    pub fn is_empty(&self) -> bool
        ensures { result ≡ has_no_statements self.now }
    {
        self.body.is_empty()
    }

    /// How many statements there are, those inside them not counted.
    pub fn len(&self) -> usize
        ensures { result ≡ statement_count self.now }
    {
        self.body.len()
    }

    /// Adds a statement at the end. Where memory is refused, the block stays as it was and the
    /// statement is dropped.
    pub fn push(&mut self, statement: Statement) -> Result<(), AllocError>
        ensures ok { IfOk result (λ _. self.new ≡ with_statement self.old (tree_of statement)) }
        ensures err { OnErr result (self.new ≡ self.old) }
    {
        self.body.push(statement)?;
        Ok(())
    }

    /// The statements, in order.
    pub fn as_slice(&self) -> &[Statement]
        ensures { block_of result.now ≡ self.now }
    {
        &self.body
    }

    /// Goes over the statements, in order.
    pub fn iter(&self) -> Iter<'_, Statement>
        ensures { block_of (iter_rest result) ≡ self.now }
    {
        self.body.iter()
    }
}
