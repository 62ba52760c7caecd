// What is told of a run, and of a program.
ghost use Rattle.std.specs.Prelude.{◌≡◌, List, []};
ghost use Rattle.aos_code.specs.declared.report.CallRec.{CallRec as CallOf};

use aos_base::{LockName, Pos};
use std::alloc::Global;
use std::marker::Model;

/// A call that led to a trap: the place of its statement in its module, by the module's number.
#[derive(Clone, Copy)]
pub struct CallRec {
    pub module: u32,
    pub pos: Pos,
}

/// The calls that led to a trap, the latest one first.
#[derive(Drop)]
pub struct Calls {
    list: Vec<CallRec>,
}

impl Model for Calls {
    ghost Value = { List CallOf };

    ghost view = { λ a. a.list.items };
}

impl Calls {
    /// No calls; no memory is taken.
    pub fn none(alloc: Global) -> Calls
        ensures { result ≡ [] }
    {
        Calls {
            list: Vec::new(alloc),
        }
    }

    pub fn as_slice(&self) -> &[CallRec]
        ensures { result.now ≡ self.now }
    {
        &self.list
    }
}

/// A trap that happened: its number, its code, the activity, and the place of the statement in its module, by the
/// module's number; the restart that follows, 0 for none; and the calls that led to it.
#[derive(Drop)]
pub struct TrapRec {
    pub number: u8,
    pub code: u8,
    pub activity: u32,
    pub module: u32,
    pub pos: Pos,
    pub restart: u8,
    pub calls: Calls,
}

/// An activity that waits for a lock: for a condition, or else to enter; and the place of the statement in its module, by the
/// module's number.
#[derive(Clone, Copy)]
pub struct WaitRec {
    pub activity: u32,
    pub lock: LockName,
    pub awaits: bool,
    pub module: u32,
    pub pos: Pos,
}

/// An AWAIT of a program, by the number of its module in load order and its place, and whether its condition is local.
#[derive(Clone, Copy)]
pub struct AwaitRec {
    pub module: u32,
    pub pos: Pos,
    pub is_local: bool,
}

/// A line that tells how a program is laid out: what it is of, 0 to 5 for a module, a variable of a module, a type, a field, a
/// method and a procedure; the name of that; the first cell of a variable or a field, the slot of a method, and else 0; and how many
/// cells it has, which is 0 for a method.
#[derive(Drop)]
pub struct LayoutLine {
    pub word: u8,
    pub name: String,
    pub at: u32,
    pub cells: u32,
}
