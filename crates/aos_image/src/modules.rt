// The modules of an image: what their cells hold at first, and which routines their bodies are.

ghost use Rattle.std.specs.Prelude.{◌≡◌, ◌≤◌, ◌++◌, length, map, IfOk, OnOk};
ghost use Rattle.std.specs.List.{flat_map};
ghost use Rattle.std.specs.String.{string_bytes};
ghost use Rattle.aos_typed.specs.Seen.{seen_program, seen_module};
ghost use Rattle.aos_code.specs.Machine as machine;
ghost use Rattle.aos_sim.specs.Shows.{text_cells};
ghost use Rattle.aos_image.specs.Made.{AreModules};

use aos_code::{Cell, Kind, ModuleDesc};
use aos_program_layout::Laid;
use aos_typed::{Program, TModule};
use std::alloc::{AllocError, Global};

// What a cell of this kind holds at first: 0, or NIL.
fn first_cell(kind: Kind) -> Cell
    ensures { result ≡ machine.first_cell kind }
{
    match kind {
        Kind::N => Cell::Num(0),
        Kind::R => Cell::Ref(0),
        Kind::C => Cell::Call(0, 0),
        Kind::A => Cell::Num(0),
    }
}

// What cells of these kinds hold at first.
fn cells_of(alloc: Global, kinds: &[Kind]) -> Result<Vec<Cell>, AllocError>
    ensures { IfOk result (λ cells. cells.items ≡ map machine.first_cell kinds.now) }
{
    kinds.iter().map(|kind| first_cell(*kind)).collect(alloc)
}

// One more string constant: its characters, and the 0X behind them.
fn put_text(cells: &mut Vec<Cell>, text: &[u8]) -> Result<(), AllocError>
    ensures { OnOk result (cells.new.items ≡ cells.old.items ++ text_cells text.now) }
{
    for character in text {
        cells.push(Cell::Num(i64::from(*character)))?;
    }
    cells.push(Cell::Num(0))?;
    Ok(())
}

// What the cells of a module hold at first, whose variables' are of these kinds and which has these string constants.
fn first_cells(alloc: Global, kinds: &[Kind], texts: &[Vec<u8>]) -> Result<Vec<Cell>, AllocError>
    ensures { IfOk result (λ cells. cells.items ≡
        map machine.first_cell kinds.now ++ flat_map (λ t. text_cells t.items) texts.now) }
{
    let mut cells = cells_of(alloc, kinds)?;
    for text in texts {
        put_text(&mut cells, text)?;
    }
    Ok(cells)
}

// A module whose variables' cells are of these kinds, and whose body is the procedure of this number.
fn describe(
    alloc: Global,
    module: &TModule,
    kinds: &[Kind],
    body: u32,
) -> Result<ModuleDesc, AllocError>
    ensures name { IfOk result (λ d. string_bytes d.name ≡ string_bytes module.now.name) }
    ensures cells { IfOk result (λ d. d.cells.items ≡
        map machine.first_cell kinds.now ++
        flat_map (λ t. text_cells t.items) module.now.texts.items) }
    ensures start { IfOk result (λ d. d.body ≡ body) }
{
    Ok(ModuleDesc {
        name: module.name.clone()?,
        cells: first_cells(alloc, kinds, &module.texts)?,
        body,
    })
}

/// The modules of a program: the body of each has its number from 1.
pub fn modules_of(
    alloc: Global,
    laid: &Laid<'_>,
    program: &Program,
) -> Result<Vec<ModuleDesc>, AllocError>
    requires few { length program.now.modules.items ≤ 64 }
    requires laid { laid.now ≡ program.now }
    ensures { IfOk result (λ modules.
        AreModules (seen_program program.now)
        (map seen_module program.now.modules.items) modules.items) }
{
    let mut modules = Vec::new(alloc);
    let mut number = 0;
    for module in &program.modules {
        modules.push(describe(alloc, module, laid.kinds(number), number + 1)?)?;
        number += 1;
    }
    Ok(modules)
}
