// How statements are left: by RETURN, by EXIT, and where jumps forward go once that is known.

ghost use Rattle.std.specs.Prelude.{◌≡◌, ◌≤◌, ◌++◌, length, option_map, OnOk};
ghost use Rattle.aos_typed.specs.Program.{Exit, Return};
ghost use Rattle.aos_typed.specs.Seen.{seen_expr};
ghost use Rattle.aos_emit_expr.specs.Pending.{pending_exit};
ghost use Rattle.aos_emit_stat.specs.Redirect.{redirect_behind, redirect as redirection};
ghost use Rattle.aos_emit_stat.specs.Adds.{AddsStat};
ghost use Rattle.aos_emit_stat.specs.Ways.{seen_within};
ghost use Rattle.aos_sim.specs.Code.{exit_code, return_code};

use aos_base::Pos;
use aos_code::Instr;
use aos_dispatch::Prefix;
use aos_emit_expr::{Scope, Within, emit_begin, emit_front, put};
use aos_typed::TExpr;
use std::alloc::AllocError;

/// The number that the jump of an EXIT has until it is known where its LOOP ends: no instruction has it.
pub const PENDING_EXIT: u32 = 4294967295;

// What leads to a pending number leads to another.
fn redirect_one(instr: Instr, pending: u32, to: u32) -> Instr
    ensures { result ≡ redirection pending to instr }
{
    match instr {
        Instr::Jump(target) => Instr::Jump(if target == pending { to } else { target }),
        _ => instr,
    }
}

/// The jumps from an instruction on are told where they go that have a pending number.
pub fn redirect(code: &mut Vec<Instr>, from: usize, pending: u32, to: u32)
    requires { from ≤ length code.old.items }
    ensures { code.new.items ≡ redirect_behind from pending to code.old.items }
{
    let mut at = from;
    while at < code.len() {
        code[at] = redirect_one(code[at], pending, to);
        at += 1;
    }
}

// The end of a frame, which leaves the region that is open.
fn put_return(code: &mut Vec<Instr>, within: Within) -> Result<(), AllocError>
    ensures { OnOk result (code.new.items ≡ code.old.items ++ return_code (seen_within within)) }
{
    match within {
        Within::NoRegion => put(code, Instr::Return),
        Within::AroundLoop | Within::InLoop => {
            put(code, Instr::Leave)?;
            put(code, Instr::Return)
        }
    }
}

/// RETURN. The region is left behind the value.
pub fn emit_return(
    scope: &Scope<'_>,
    code: &mut Vec<Instr>,
    at: Pos,
    value: &Option<TExpr>,
) -> Result<(), AllocError>
    ensures { OnOk result (AddsStat scope.now code.old.items code.new.items 0
        (Return at (option_map seen_expr value.now))) }
{
    emit_begin(code, at)?;
    match value {
        Some(result) => {
            emit_front(scope, code, Prefix::Value(result))?;
            put_return(code, scope.within())
        }
        None => put_return(code, scope.within()),
    }
}

// The jump out of a LOOP, which leaves a region that is in it.
fn put_exit(code: &mut Vec<Instr>, within: Within) -> Result<(), AllocError>
    ensures { OnOk result (code.new.items ≡
        code.old.items ++ exit_code (seen_within within) pending_exit) }
{
    match within {
        Within::NoRegion | Within::AroundLoop => put(code, Instr::Jump(PENDING_EXIT)),
        Within::InLoop => {
            put(code, Instr::Leave)?;
            put(code, Instr::Jump(PENDING_EXIT))
        }
    }
}

/// EXIT.
pub fn emit_exit(scope: &Scope<'_>, code: &mut Vec<Instr>, at: Pos) -> Result<(), AllocError>
    ensures { OnOk result (AddsStat scope.now code.old.items code.new.items 0 (Exit at)) }
{
    emit_begin(code, at)?;
    put_exit(code, scope.within())
}
