// What a condition comes to, over the topmost frame of the one that awaits it. Nothing that is seen changes, and no memory is taken.
ghost use Rattle.std.specs.Prelude.{◌≡◌, ◌<◌, ◌≤◌, ◌+◌, ◌^◌, ℕ, suc, [], None, true, length, vec_capacity};
ghost use Rattle.std.specs.List.{list_all};
ghost use Rattle.aos_code.specs.Machine.{verdict as verdict_of, decided as decided_of, may_evaluate};
ghost use Rattle.aos_store.specs.declared.frames.Frame.{Frame as KeptFrame};
ghost use Rattle.aos_store.specs.Store.{list_in, frames_in, memory_in, rooted_in, SameCounts};
ghost use Rattle.aos_store.specs.Room.{KeepsRoom};
ghost use Rattle.aos_silent_steps.specs.Known.{known};
ghost use Rattle.aos_cpu.specs.Verdicts.{IsTop, TopHasMoved, TopHasRoom, HasTop, HasRoomIn, HasStopped, HasSwapped, HasGoneOn, IsJudged, verdict_here, or_later};

use crate::texts::compare_at;
use aos_base::{Verdict, related, truth};
use aos_code::{Cell, Image, Instr};
use aos_silent_steps::{Question, Stop, condition_of, is_of, replace, silent_condition};
use aos_store::{Frames, Heap, Store, load_at};
use std::mem;

/// What a condition's number says; trap 16 where it is neither 0 nor 1.
fn decided(value: i64) -> Verdict
    ensures { result ≡ decided_of value }
{
    match value {
        0 => Verdict::Fails,
        1 => Verdict::Holds,
        _ => Verdict::Traps(16),
    }
}

/// The topmost frame stands at this place, and exchanges its operands for these. Answers the place where it stood.
fn exchange(frames: &mut Frames, at: usize, operands: &mut Vec<Cell>) -> usize
    ensures exchanged { (f : KeptFrame) → IsTop frames.old.list.items f →
        HasSwapped f at operands.old operands.new result frames.old.list.items
        frames.new.list.items }
    ensures following { frames.new.following ≡ frames.old.following }
    ensures counts { SameCounts frames.old frames.new }
{
    match frames.list.last_mut() {
        None => at,
        Some(frame) => {
            mem::swap(&mut frame.operands, operands);
            let before = frame.next;
            frame.next = at;
            before
        }
    }
}

/// The topmost frame goes on behind the place in the condition, with one operand in place of so many.
fn put_top(frames: &mut Frames, at: usize, taken: usize, cell: Cell)
    requires place { at + 1 < 2 ^ 64 }
    requires room { (f : KeptFrame) → IsTop frames.old.list.items f →
        length f.operands.items < vec_capacity f.operands }
    ensures put { (f : KeptFrame) → IsTop frames.old.list.items f →
        HasGoneOn f at taken cell frames.old.list.items frames.new.list.items }
    ensures following { frames.new.following ≡ frames.old.following }
    ensures counts { SameCounts frames.old frames.new }
{
    if let Some(frame) = frames.list.last_mut() {
        replace(&mut frame.operands, taken, cell);
        frame.next = at + 1;
    }
}

/// The silent work of the topmost frame in the condition, up to where it ends.
fn come_to(image: &Image, heap: &Heap, code: &[Instr], frames: &mut Frames) -> Stop
    requires evaluates { list_all may_evaluate code.now ≡ true }
    requires top { HasTop frames.old.list.items }
    requires room { TopHasRoom code.now frames.old.list.items }
    ensures stopped { (f : KeptFrame) → IsTop frames.old.list.items f →
        HasStopped image.now (known heap.now) code.now f result frames.old.list.items
        frames.new.list.items }
    ensures following { frames.new.following ≡ frames.old.following }
    ensures counts { SameCounts frames.old frames.new }
{
    let here = frames.count().saturating_sub(1);
    match frames.list.last_mut() {
        None => Stop::Fails(16, 0),
        Some(frame) => silent_condition(image, heap, code, here, frame),
    }
}

/// What follows where the topmost frame's silent work has come to this question: a verdict, or none, and then the frame goes on with the
/// answer.
fn judge(store: &Store, question: Question, at: usize, frames: &mut Frames) -> Option<Verdict>
    requires place { at + 1 < 2 ^ 64 }
    requires room { (f : KeptFrame) → IsTop frames.old.list.items f →
        length f.operands.items < vec_capacity f.operands }
    ensures judged { (f : KeptFrame) → IsTop frames.old.list.items f →
        IsJudged (rooted_in frames.old store.now) question at f frames.old.list.items
        frames.new.list.items result }
    ensures following { frames.new.following ≡ frames.old.following }
    ensures counts { SameCounts frames.old frames.new }
{
    match question {
        Question::Reads(kind, address) => match load_at(
            frames,
            store,
            address.root,
            address.cell as usize,
        ) {
            None => Some(Verdict::Traps(16)),
            Some(value) => {
                if !is_of(kind, value) {
                    return Some(Verdict::Traps(16));
                }
                put_top(frames, at, 1, value);
                None
            }
        },
        Question::ComparesTexts(relation, a, n, b, m) => match compare_at(
            frames, store, a, n, b, m,
        ) {
            None => Some(Verdict::Traps(16)),
            Some(order) => {
                put_top(frames, at, 4, Cell::Num(truth(related(relation, order, 0))));
                None
            }
        },
        _ => Some(Verdict::Fails),
    }
}

/// The topmost frame's silent work in the condition, and what follows: a verdict, or none, and then it goes on.
fn step(image: &Image, store: &Store, code: &[Instr], frames: &mut Frames) -> Option<Verdict>
    requires evaluates { list_all may_evaluate code.now ≡ true }
    requires top { HasTop frames.old.list.items }
    requires room { TopHasRoom code.now frames.old.list.items }
    ensures verdict { (n : ℕ) →
        verdict_here image.now (memory_in store.now) code.now (suc n)
        (list_in frames.old.list.items) ≡
        or_later result (verdict_here image.now (memory_in store.now) code.now n
        (list_in frames.new.list.items)) }
    ensures moved { (f : KeptFrame) → IsTop frames.old.list.items f →
        TopHasMoved frames.old.list.items frames.new.list.items f }
    ensures room { result ≡ None → TopHasRoom code.now frames.new.list.items }
    ensures top { HasTop frames.new.list.items }
    ensures following { frames.new.following ≡ frames.old.following }
    ensures counts { SameCounts frames.old frames.new }
{
    match come_to(image, &store.objects, code, frames) {
        Stop::Work(question, at) => judge(store, question, at, frames),
        Stop::Begins(_, _) => Some(Verdict::Fails),
        Stop::Fails(number, _) => Some(Verdict::Traps(number)),
        Stop::Decides(value) => Some(decided(value)),
    }
}

/// What a condition of this code comes to from where the topmost frame stands in it.
fn evaluate(image: &Image, store: &Store, code: &[Instr], frames: &mut Frames) -> Verdict
    requires evaluates { list_all may_evaluate code.now ≡ true }
    requires top { HasTop frames.old.list.items }
    requires room { TopHasRoom code.now frames.old.list.items }
    ensures verdict { result ≡ verdict_here image.now (memory_in store.now) code.now
        (suc (length code.now)) (list_in frames.old.list.items) }
    ensures moved { (f : KeptFrame) → IsTop frames.old.list.items f →
        TopHasMoved frames.old.list.items frames.new.list.items f }
    ensures following { frames.new.following ≡ frames.old.following }
    ensures counts { SameCounts frames.old frames.new }
{
    let mut left = code.len();
    while left > 0 {
        match step(image, store, code, frames) {
            Some(verdict) => return verdict,
            None => left -= 1,
        }
    }
    match step(image, store, code, frames) {
        Some(verdict) => verdict,
        None => Verdict::Fails,
    }
}

/// What a condition of the image comes to over the topmost frame, with operands that lie on this stack, which has room for all that it
/// may give. Frames and memory are as they were, and no memory is taken.
pub fn verdict(
    image: &Image,
    store: &Store,
    frames: &mut Frames,
    condition: u32,
    stack: &mut Vec<Cell>,
) -> Verdict
    requires few { length frames.old.list.items ≤ 2 ^ 32 }
    requires empty { stack.old.items ≡ [] }
    requires room { HasRoomIn image.now condition stack.old }
    ensures verdict { result ≡
        verdict_of image.now (memory_in store.now) (frames_in frames.old) condition }
    ensures frames { frames_in frames.new ≡ frames_in frames.old }
    ensures counts { SameCounts frames.old frames.new }
    ensures empty { stack.new.items ≡ [] }
    ensures room { vec_capacity stack.old ≤ vec_capacity stack.new }
    ensures keeps { KeepsRoom frames.old frames.new }
{
    if frames.count() == 0 {
        return Verdict::Fails;
    }
    let code = condition_of(image, condition);
    let at = exchange(frames, 0, stack);
    let verdict = evaluate(image, store, code, frames);
    exchange(frames, at, stack);
    stack.clear();
    verdict
}
