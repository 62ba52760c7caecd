//! Laws alone: the code of a well-typed program is sound. Its functions do no work; their contracts are the laws.
#![tactic(auto)]

ghost use Rattle.aos_typed.specs.Program.{Program};
ghost use Rattle.aos_code.specs.declared.image.Image.{Image};
ghost use Rattle.aos_typed.specs.WellTyped.{IsWellTyped};
ghost use Rattle.aos_sim.specs.Need.{HasDepthsOf};
ghost use Rattle.aos_sim.specs.Shows.{IsCodeOf};
ghost use Rattle.aos_code_soundness.specs.Bodies.{AreBodiesSound, AreSound, AreConditionsSound};
ghost use Rattle.aos_code_soundness.specs.Images.{IsSoundImageOf};
ghost use Rattle.aos_code_soundness.specs.Parts.{HasTablesOf, ArePartsSound};

/// Each body of an image that has a well-typed program's code is sound as the procedure of its
/// number, with room for as many operands as its statements need; and so with as many as it says,
/// where that is what its statements need.
pub fn law_of_soundness()
    ensures room { (p : Program) (image : Image) → IsWellTyped p → IsCodeOf p image →
        AreBodiesSound p image }
    ensures depths { (p : Program) (image : Image) →
        IsWellTyped p → IsCodeOf p image → HasDepthsOf p image → AreSound image }
{}

/// Each condition of an image that has a well-typed program's code is sound as a condition of the procedure over whose frames it is
/// evaluated, with room for as many operands as its expression needs.
pub fn law_of_conditions()
    ensures { (p : Program) (image : Image) → IsWellTyped p → IsCodeOf p image →
        AreConditionsSound p image }
{}

/// An image that has a well-typed program's code, and for each body and condition as many operands as it needs, is sound as a whole: its
/// bodies as the procedures of their numbers, its conditions as those of the procedures over whose frames they are evaluated, each with
/// room for as many operands as it says; and each procedure that it names has a body.
pub fn law_of_images()
    ensures { (p : Program) (image : Image) → IsWellTyped p → IsCodeOf p image →
        HasDepthsOf p image → IsSoundImageOf p image }
{}

/// Over each image with a well-typed program's modules, types and shapes, and as many conditions, the code of an expression, of a
/// statement and of statements of a routine is sound but that its paths may leave it at its end: with what the expression gives added to
/// the operands, and behind statements without any.
pub fn law_of_parts()
    ensures { (p : Program) (image : Image) → IsWellTyped p → HasTablesOf p image →
        ArePartsSound p image }
{}
