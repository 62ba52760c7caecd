// Runs of the module that `gen` runs, by the workers alone, which know of their loans.

ghost use Rattle.std.specs.Prelude.{◌≡◌, ◌≤◌, ◌^◌, [], All, length, OnOk, IfOk};

use crate::given::wanted;
use aos_base::NoMemory;
use aos_cases::{Section, tell};
use aos_code::Image;
use aos_compile::{CompileErr, compile};
use aos_gate::OpenGate;
use aos_gen::module_text;
use aos_kernel::Kernel;
use aos_workers::run;
use std::alloc::{AllocError, Global};
use std::sync::{Arc, Wait};
use std::thread::Threads;

// The most bytes that a text has.
const MOST_BYTES: usize = 1_048_576;

// The most modules that a program has.
const MOST_MODULES: usize = 64;

// How many workers there are, and how many statements an activity may begin.
const WORKERS: u32 = 2;

const BUDGET: u64 = 1_000_000;

// One more text.
fn put(texts: &mut Vec<Vec<u8>>, text: Vec<u8>) -> Result<(), AllocError>
    requires size { length text.items ≤ 2 ^ 20 }
    requires sizes { All (λ t. length t.items ≤ 2 ^ 20) texts.old.items }
    ensures { OnOk result (All (λ t. length t.items ≤ 2 ^ 20) texts.new.items) }
{
    texts.push(text)?;
    Ok(())
}

// The generated module with so many pairs, alone.
fn texts_of(alloc: Global, pairs: u32) -> Result<Vec<Vec<u8>>, NoMemory>
    ensures { IfOk result (λ texts. All (λ t. length t.items ≤ 2 ^ 20) texts.items) }
{
    let mut texts = Vec::new(alloc);
    let text = module_text(alloc, pairs)?;
    if text.len() > MOST_BYTES {
        return Err(NoMemory);
    }
    put(&mut texts, text)?;
    Ok(texts)
}

// The image of these texts, of which none is refused.
fn image_of(alloc: Global, texts: &[Vec<u8>]) -> Result<Image, NoMemory>
    requires { All (λ t. length t.items ≤ 2 ^ 20) texts.now }
{
    if texts.is_empty() || texts.len() > MOST_MODULES {
        return Err(NoMemory);
    }
    match compile(alloc, texts) {
        Ok((_, image)) => Ok(image),
        Err(CompileErr::Refused(_)) => Err(NoMemory),
        Err(CompileErr::NoMemory) => Err(NoMemory),
    }
}

// The image of the generated module.
fn generated(alloc: Global, pairs: u32) -> Result<Image, NoMemory> {
    let texts = texts_of(alloc, pairs)?;
    image_of(alloc, &texts)
}

// An image that workers share.
fn shared(alloc: Global, image: Image) -> Result<Arc<Image>, NoMemory> {
    match Arc::new(alloc, image) {
        Ok(image) => Ok(image),
        Err(_) => Err(NoMemory),
    }
}

// A kernel in which nothing has happened yet, so nothing is lent.
fn kernel_of(alloc: Global, image: Arc<Image>) -> Result<Box<Kernel>, NoMemory>
    ensures { IfOk result (λ k. k.value.lent ≡ []) }
{
    let kernel = Kernel::new(alloc, image, WORKERS, BUDGET)?;
    Ok(kernel)
}

// The kernel behind a run of the generated module.
fn ran<R: Threads + Wait + Sync>(
    rt: &R,
    alloc: Global,
    pairs: u32,
) -> Result<Box<Kernel>, NoMemory> {
    let image = shared(alloc, generated(alloc, pairs)?)?;
    let kernel = kernel_of(alloc, image)?;
    let (kernel, want) = run(rt, alloc, kernel, &OpenGate);
    if want.is_some() {
        return Err(NoMemory);
    }
    Ok(kernel)
}

/// Adds what is told of a run of the generated module by two workers, with so many pairs as the command says: of what it writes,
/// where that isn't what the sections behind it want, and of loans, where none was made.
pub fn add_lending<R: AllocGlobal + Threads + Wait + Sync>(
    rt: &R,
    told: &mut String,
    command: &Section,
    behind: &[Section],
) -> Result<(), AllocError> {
    let alloc = rt.alloc();
    let pairs = command.text.parse::<u32>().unwrap_or(0);
    let Ok(kernel) = ran(rt, alloc, pairs) else {
        return Err(AllocError);
    };
    let made = if kernel.lent() == 0 { "none" } else { "some" };
    tell(alloc, told, "loans", made.as_bytes(), "some")?;
    tell(
        alloc,
        told,
        "out",
        kernel.output(),
        wanted(behind, "out", ""),
    )
}
