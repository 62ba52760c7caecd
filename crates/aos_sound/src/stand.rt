// What may stand at a place of the code, whether or not a path comes there.

ghost use Rattle.std.specs.Prelude.{◌≡◌, ◌↔◌, ℕ, nat_lt, slice_get, Some, IsTrue};
ghost use Rattle.aos_code.specs.declared.instr.Instr.{Instr};
ghost use Rattle.aos_code.specs.Numbered.{numbered};
ghost use Rattle.aos_sound.specs.Sound as sound;
ghost use Rattle.aos_code.specs.Silent.{keeps_in};
ghost use Rattle.aos_sound.specs.Sound.{is_begin, is_procedure, may_jump, frame_cells, is_some};

use aos_code::{Image, Instr, ModuleDesc, ProcShape, TypeDesc};

/// What code is for.
#[derive(Clone, Copy)]
pub enum Role {
    /// It is the body of a procedure.
    Procedure,
    /// It is evaluated as a condition, so nobody is to see that it runs.
    Condition,
}

fn for_procedure(role: Role) -> bool
    ensures { result ≡ is_procedure role }
{
    match role {
        Role::Procedure => true,
        Role::Condition => false,
    }
}

/// Whether a Begin stands at this place.
fn begins(code: &[Instr], at: usize) -> bool
    ensures { result ≡ is_begin (slice_get code.now at) }
{
    if at < code.len() {
        match code[at] {
            Instr::Begin(_, _) => true,
            _ => false,
        }
    } else {
        false
    }
}

/// Whether the instruction at this place may go on at that one.
fn jumps(role: Role, code: &[Instr], to: usize, at: usize) -> bool
    ensures { result ≡ may_jump role code.now to at }
{
    to < code.len() && (at < to || (for_procedure(role) && begins(code, to)))
}

/// Whether the module of this number has this place: a cell's, or that behind its last cell.
fn has_place(modules: &[ModuleDesc], m: u32, c: u32) -> bool
    ensures { result ≡ sound.has_place (slice_get modules.now m) c }
{
    (m as usize) < modules.len() && (c as usize) <= modules[m as usize].cells.len()
}

/// Whether a type has this number.
fn has_type(types: &[TypeDesc], t: u32) -> bool
    ensures { result ≡ is_some (numbered types.now t) }
{
    t > 0 && (t as usize) <= types.len()
}

/// Whether this is the number of a type, or 0 for none.
fn is_type_or_none(image: &Image, t: u32) -> bool
    ensures { result ≡ sound.is_type_or_none image.now t }
{
    t == 0 || has_type(&image.types, t)
}

/// Whether a procedure has this number.
fn has_procedure(shapes: &[ProcShape], p: u32) -> bool
    ensures { result ≡ is_some (numbered shapes.now p) }
{
    p > 0 && (p as usize) <= shapes.len()
}

/// Whether the procedure of this number is called on an object.
fn is_method(shapes: &[ProcShape], p: u32) -> bool
    ensures { result ≡ sound.is_method (numbered shapes.now p) }
{
    has_procedure(shapes, p) && shapes[p as usize - 1].method
}

/// Whether a type has a method in this slot.
fn has_slot(types: &[TypeDesc], slot: u32) -> bool
    ensures { result ≡ sound.has_slot types.now slot }
{
    for desc in types {
        if (slot as usize) < desc.methods.len() {
            return true;
        }
    }
    false
}

/// Whether a frame of the procedure of this number has this place, which may be that behind its last cell.
fn has_own_place(shapes: &[ProcShape], own: u32, c: u32) -> bool
    ensures { result ≡ sound.has_own_place (numbered shapes.now own) c }
{
    has_procedure(shapes, own) && c <= shapes[own as usize - 1].cells
}

/// Whether a frame of the procedure of this number has this cell.
fn has_cell(shapes: &[ProcShape], own: u32, c: u32) -> bool
    ensures { result ≡ nat_lt c (frame_cells (numbered shapes.now own)) }
{
    has_procedure(shapes, own) && c < shapes[own as usize - 1].cells
}

/// Whether a frame of the procedure of this number keeps something under this number.
fn has_keep(shapes: &[ProcShape], own: u32, c: u32) -> bool
    ensures { result ≡ nat_lt c (keeps_in (numbered shapes.now own)) }
{
    has_procedure(shapes, own) && c < shapes[own as usize - 1].keeps
}

/// Whether an instruction may stand at this place.
fn may_stand(image: &Image, own: u32, role: Role, code: &[Instr], at: usize, i: &Instr) -> bool
    ensures { result ≡ sound.may_stand image.now own role code.now at i.now }
{
    match *i {
        Instr::Frame(c) => has_own_place(&image.shapes, own, c),
        Instr::Module(m, c) => has_place(&image.modules, m, c),
        Instr::Param(c) => has_cell(&image.shapes, own, c),
        Instr::Length(c) => has_cell(&image.shapes, own, c),
        Instr::Proc(p) => has_procedure(&image.shapes, p),
        Instr::Bind(slot) => has_slot(&image.types, slot),
        Instr::SelfRef => is_method(&image.shapes, own),
        Instr::Offset(_, t) => is_type_or_none(image, t),
        Instr::IndexOpen(j, _) => 0 < j,
        Instr::PickLen(d, j) => d < j,
        Instr::Keep(c, _) => for_procedure(role) && has_keep(&image.shapes, own, c),
        Instr::Kept(c, _) => has_keep(&image.shapes, own, c),
        Instr::Jump(to) => jumps(role, code, to as usize, at),
        Instr::JumpFalse(to) => jumps(role, code, to as usize, at),
        Instr::Call(p) => for_procedure(role) && has_procedure(&image.shapes, p),
        Instr::Virtual(slot, p) => for_procedure(role)
            && (has_procedure(&image.shapes, p) && has_slot(&image.types, slot)),
        Instr::CallValue(p) => for_procedure(role) && has_procedure(&image.shapes, p),
        Instr::NewObject(t) => for_procedure(role) && has_type(&image.types, t),
        Instr::NewArray(t, _) => for_procedure(role) && has_type(&image.types, t),
        Instr::Is(t) => has_type(&image.types, t),
        Instr::IsPlace(t) => has_type(&image.types, t),
        Instr::Guard(t) => has_type(&image.types, t),
        Instr::GuardPlace(t) => has_type(&image.types, t),
        Instr::Assert(_) => for_procedure(role),
        Instr::Halt(_) => for_procedure(role),
        Instr::Begin(_, _) => for_procedure(role),
        Instr::Store(_) => for_procedure(role),
        Instr::Copy(_) => for_procedure(role),
        Instr::PutText(_) => for_procedure(role),
        Instr::Start => for_procedure(role),
        Instr::Enter => for_procedure(role),
        Instr::Leave => for_procedure(role),
        Instr::Await(c) => for_procedure(role) && (c as usize) < image.conds.len(),
        Instr::Verdict => !for_procedure(role),
        Instr::Return => for_procedure(role),
        Instr::OutChar => for_procedure(role),
        Instr::OutInt => for_procedure(role),
        Instr::OutString => for_procedure(role),
        Instr::OutLn => for_procedure(role),
        Instr::OutOpen => for_procedure(role),
        _ => true,
    }
}

/// Whether each instruction may stand where it does.
pub fn all_stand(image: &Image, own: u32, role: Role, code: &[Instr]) -> bool
    ensures { IsTrue result ↔ ((at : ℕ) (i : Instr) → slice_get code.now at ≡ Some i →
        IsTrue (sound.may_stand image.now own role code.now at i)) }
{
    let mut at = 0;
    while at < code.len() {
        if !may_stand(image, own, role, code, at, &code[at]) {
            return false;
        }
        at += 1;
    }
    true
}
