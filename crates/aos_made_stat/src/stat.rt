// A statement, made of its parts.

ghost use Rattle.std.specs.Prelude.{◌≡◌, IfOk, map, None, Some};
ghost use Rattle.aos_typed.specs.Program as program;
ghost use Rattle.aos_typed.specs.Seen.{arms_of, cases_of, seen_callee, seen_else, seen_expr};
ghost use Rattle.aos_typed.specs.Seen.{seen_list, seen_place, seen_rows, seen_stat, seen_stats};

use crate::arms::MadeArms;
use crate::cases::{MadeCases, MadeElse};
use crate::exprs::MadeExprs;
use crate::stats::MadeStats;
use aos_base::{Pos, Width};
use aos_made::{MadeArguments, MadeCallee, MadePlace, MadeRows, Typed};
use aos_typed::{Change, OutCall, TPlace, TStat, TType};
use std::alloc::{AllocError, Global};
use std::marker::Model;

/// A statement.
pub struct MadeStat {
    kept: Box<TStat>,
}

impl Model for MadeStat {
    ghost use Rattle.aos_typed.specs.declared.tree.TStat.{TStat};
    ghost use Rattle.aos_typed.specs.contracts.tree.TStat as tree;
    ghost use Rattle.std.specs.Coded.{codes};

    ghost Value = { TStat };

    ghost coded = { Prim.hlevel (codes, tree.the_row.coded) };

    ghost view = { λ a. a.kept.value };
}

// Crates above drop it by this one call.
impl Drop for MadeStat {
    fn drop(self) {
        let MadeStat { kept } = self;
        drop(kept);
    }
}

impl MadeStat {
    fn new(alloc: Global, stat: TStat) -> Result<MadeStat, AllocError>
        ensures { IfOk result (λ s. s ≡ stat) }
    {
        Ok(MadeStat {
            kept: Box::new(alloc, stat)?,
        })
    }

    /// As one of a sequence.
    pub(crate) fn take(self) -> TStat
        ensures { result ≡ self }
    {
        let MadeStat { kept } = self;
        Box::into_inner(kept)
    }

    /// A value for a variable of this type.
    pub fn assign(
        alloc: Global,
        at: Pos,
        of: TType,
        place: TPlace,
        value: Typed,
    ) -> Result<MadeStat, AllocError>
        ensures { IfOk result (λ s. seen_stat s ≡
            program.Assign at of (seen_place place) (seen_expr value)) }
    {
        MadeStat::new(alloc, TStat::Assign(at, of, place, value.take()))
    }

    /// A whole record or array of this type.
    pub fn copy(
        alloc: Global,
        at: Pos,
        of: TType,
        to: TPlace,
        from: TPlace,
    ) -> Result<MadeStat, AllocError>
        ensures { IfOk result (λ s. seen_stat s ≡
            program.Copy at of (seen_place to) (seen_place from)) }
    {
        MadeStat::new(alloc, TStat::Copy(at, of, to, from))
    }

    /// A text for an array of characters, strictly or not.
    pub fn put_text(
        alloc: Global,
        at: Pos,
        strict: bool,
        from: MadeRows,
        to: MadeRows,
    ) -> Result<MadeStat, AllocError>
        ensures { IfOk result (λ s. seen_stat s ≡
            program.PutText at strict (seen_rows from) (seen_rows to)) }
    {
        MadeStat::new(alloc, TStat::PutText(at, strict, from.take(), to.take()))
    }

    /// IF, with the statements behind ELSE.
    pub fn if_of(
        alloc: Global,
        at: Pos,
        arms: MadeArms,
        last: MadeStats,
    ) -> Result<MadeStat, AllocError>
        ensures { IfOk result (λ s. seen_stat s ≡ program.If at (arms_of arms (seen_stats last))) }
    {
        let arms = arms.take();
        let last = last.take();
        MadeStat::new(alloc, TStat::If(at, arms, last))
    }

    /// CASE, with its ELSE.
    pub fn case_of(
        alloc: Global,
        at: Pos,
        value: Typed,
        arms: MadeCases,
        last: MadeElse,
    ) -> Result<MadeStat, AllocError>
        ensures { IfOk result (λ s. seen_stat s ≡
            program.Case at (seen_expr value) (cases_of arms (seen_else last))) }
    {
        let value = value.take();
        let arms = arms.take();
        let last = last.take();
        MadeStat::new(alloc, TStat::Case(at, value, arms, last))
    }

    /// WHILE.
    pub fn while_of(
        alloc: Global,
        at: Pos,
        test: Typed,
        body: MadeStats,
    ) -> Result<MadeStat, AllocError>
        ensures { IfOk result (λ s. seen_stat s ≡
            program.While at (seen_expr test) (seen_stats body)) }
    {
        let test = test.take();
        let body = body.take();
        MadeStat::new(alloc, TStat::While(at, test, body))
    }

    /// REPEAT.
    pub fn repeat_of(
        alloc: Global,
        at: Pos,
        body: MadeStats,
        test: Typed,
    ) -> Result<MadeStat, AllocError>
        ensures { IfOk result (λ s. seen_stat s ≡
            program.Repeat at (seen_stats body) (seen_expr test)) }
    {
        let body = body.take();
        let test = test.take();
        MadeStat::new(alloc, TStat::Repeat(at, body, test))
    }

    /// LOOP.
    pub fn loop_of(alloc: Global, at: Pos, body: MadeStats) -> Result<MadeStat, AllocError>
        ensures { IfOk result (λ s. seen_stat s ≡ program.Loop at (seen_stats body)) }
    {
        let body = body.take();
        MadeStat::new(alloc, TStat::Loop(at, body))
    }

    /// EXIT.
    pub fn exit(alloc: Global, at: Pos) -> Result<MadeStat, AllocError>
        ensures { IfOk result (λ s. seen_stat s ≡ program.Exit at) }
    {
        MadeStat::new(alloc, TStat::Exit(at))
    }

    /// FOR with a variable of this width: its first and last values, its step and its statements.
    pub fn for_of(
        alloc: Global,
        at: Pos,
        width: Width,
        place: MadePlace,
        first: Typed,
        last: Typed,
        step: i64,
        body: MadeStats,
    ) -> Result<MadeStat, AllocError>
        ensures { IfOk result (λ s. seen_stat s ≡ program.For at width (seen_place place)
            (seen_expr first) (seen_expr last) step (seen_stats body)) }
    {
        let place = place.take();
        let first = first.part(alloc)?;
        let last = last.part(alloc)?;
        let body = body.take();
        MadeStat::new(alloc, TStat::For(at, width, place, first, last, step, body))
    }

    /// A block, which is exclusive or not.
    pub fn block(
        alloc: Global,
        at: Pos,
        exclusive: bool,
        body: MadeStats,
    ) -> Result<MadeStat, AllocError>
        ensures { IfOk result (λ s. seen_stat s ≡ program.Block at exclusive (seen_stats body)) }
    {
        let body = body.take();
        MadeStat::new(alloc, TStat::Block(at, exclusive, body))
    }

    /// AWAIT, by its number among those of the program.
    pub fn await_of(
        alloc: Global,
        at: Pos,
        number: u32,
        test: Typed,
    ) -> Result<MadeStat, AllocError>
        ensures { IfOk result (λ s. seen_stat s ≡ program.Await at number (seen_expr test)) }
    {
        MadeStat::new(alloc, TStat::Await(at, number, test.take()))
    }

    /// ASSERT, with a code.
    pub fn assert(alloc: Global, at: Pos, test: Typed, code: u8) -> Result<MadeStat, AllocError>
        ensures { IfOk result (λ s. seen_stat s ≡ program.Assert at (seen_expr test) code) }
    {
        MadeStat::new(alloc, TStat::Assert(at, test.take(), code))
    }

    /// HALT, with a code.
    pub fn halt(alloc: Global, at: Pos, code: u8) -> Result<MadeStat, AllocError>
        ensures { IfOk result (λ s. seen_stat s ≡ program.Halt at code) }
    {
        MadeStat::new(alloc, TStat::Halt(at, code))
    }

    /// A variable is changed by a value.
    pub fn change(
        alloc: Global,
        at: Pos,
        change: Change,
        place: TPlace,
        value: Typed,
    ) -> Result<MadeStat, AllocError>
        ensures { IfOk result (λ s. seen_stat s ≡
            program.Change at change (seen_place place) (seen_expr value)) }
    {
        MadeStat::new(alloc, TStat::Change(at, change, place, value.take()))
    }

    /// A call of a proper procedure.
    pub fn perform(
        alloc: Global,
        at: Pos,
        callee: MadeCallee,
        given: MadeArguments,
    ) -> Result<MadeStat, AllocError>
        ensures { IfOk result (λ s. seen_stat s ≡
            program.Perform at (seen_callee callee) (seen_list given)) }
    {
        MadeStat::new(alloc, TStat::Perform(at, callee.take(), given.take()))
    }

    /// RETURN without a value.
    pub fn leave(alloc: Global, at: Pos) -> Result<MadeStat, AllocError>
        ensures { IfOk result (λ s. seen_stat s ≡ program.Return at None) }
    {
        MadeStat::new(alloc, TStat::Return(at, None))
    }

    /// RETURN with a value.
    pub fn give(alloc: Global, at: Pos, value: Typed) -> Result<MadeStat, AllocError>
        ensures { IfOk result (λ s. seen_stat s ≡ program.Return at (Some (seen_expr value))) }
    {
        MadeStat::new(alloc, TStat::Return(at, Some(value.take())))
    }

    /// NEW of an object of this type, by its number in the program, and what its initializer is handed.
    pub fn object(
        alloc: Global,
        at: Pos,
        place: TPlace,
        of: u32,
        given: MadeArguments,
    ) -> Result<MadeStat, AllocError>
        ensures { IfOk result (λ s. seen_stat s ≡
            program.New at (seen_place place) of (seen_list given)) }
    {
        MadeStat::new(alloc, TStat::New(at, place, of, given.take()))
    }

    /// NEW of a record or an array of this type, by its number in the program, and the lengths of an open array.
    pub fn make(
        alloc: Global,
        at: Pos,
        place: TPlace,
        of: u32,
        lengths: MadeExprs,
    ) -> Result<MadeStat, AllocError>
        ensures { IfOk result (λ s. seen_stat s ≡
            program.Make at (seen_place place) of (map seen_expr lengths)) }
    {
        MadeStat::new(alloc, TStat::Make(at, place, of, lengths.take()))
    }

    /// WITH of an object that is guarded first.
    pub fn with_of(
        alloc: Global,
        at: Pos,
        object: Typed,
        body: MadeStats,
    ) -> Result<MadeStat, AllocError>
        ensures { IfOk result (λ s. seen_stat s ≡
            program.With at (seen_expr object) (seen_stats body)) }
    {
        let object = object.take();
        let body = body.take();
        MadeStat::new(alloc, TStat::With(at, object, body))
    }

    /// WITH of a record that is guarded first.
    pub fn with_record(
        alloc: Global,
        at: Pos,
        whole: MadePlace,
        body: MadeStats,
    ) -> Result<MadeStat, AllocError>
        ensures { IfOk result (λ s. seen_stat s ≡
            program.WithRecord at (seen_place whole) (seen_stats body)) }
    {
        let whole = whole.take();
        let body = body.take();
        MadeStat::new(alloc, TStat::WithRecord(at, whole, body))
    }

    /// Out.Open.
    pub fn out_open(alloc: Global, at: Pos) -> Result<MadeStat, AllocError>
        ensures { IfOk result (λ s. seen_stat s ≡ program.Out at program.Open) }
    {
        MadeStat::new(alloc, TStat::Out(at, OutCall::Open))
    }

    /// Out.Ln.
    pub fn out_line(alloc: Global, at: Pos) -> Result<MadeStat, AllocError>
        ensures { IfOk result (λ s. seen_stat s ≡ program.Out at program.Ln) }
    {
        MadeStat::new(alloc, TStat::Out(at, OutCall::Ln))
    }

    /// Out.Char.
    pub fn out_char(alloc: Global, at: Pos, character: Typed) -> Result<MadeStat, AllocError>
        ensures { IfOk result (λ s. seen_stat s ≡
            program.Out at (program.Char (seen_expr character))) }
    {
        MadeStat::new(alloc, TStat::Out(at, OutCall::Char(character.take())))
    }

    /// Out.Int: the number, and in how many places it stands.
    pub fn out_number(
        alloc: Global,
        at: Pos,
        number: Typed,
        width: Typed,
    ) -> Result<MadeStat, AllocError>
        ensures { IfOk result (λ s. seen_stat s ≡
            program.Out at (program.Int (seen_expr number) (seen_expr width))) }
    {
        MadeStat::new(
            alloc,
            TStat::Out(at, OutCall::Int(number.take(), width.take())),
        )
    }

    /// Out.String.
    pub fn out_text(alloc: Global, at: Pos, text: MadeRows) -> Result<MadeStat, AllocError>
        ensures { IfOk result (λ s.
            seen_stat s ≡ program.Out at (program.String (seen_rows text))) }
    {
        MadeStat::new(alloc, TStat::Out(at, OutCall::String(text.take())))
    }
}
