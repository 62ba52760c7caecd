// Laws of sound bodies.

ghost use Rattle.std.specs.Prelude.{◌≡◌, ℕ, List, true};
ghost use Rattle.aos_code.specs.declared.instr.Instr.{Instr};
ghost use Rattle.aos_code.specs.declared.image.Image.{Image};
ghost use Rattle.aos_code.specs.Memory.{Memory};
ghost use Rattle.aos_code.specs.Machine.{Frames, opened, turn, past, is_passed, body_of, first_frames};
ghost use Rattle.aos_sound.specs.declared.stand.Role.{Role};
ghost use Rattle.aos_sound.specs.Sound.{ArePathsSound, IsSound};
ghost use Rattle.aos_sound.specs.Fits.{KeepsToPaths, FindsAll};
ghost use Rattle.aos_sound.specs.FitFrames.{IsSoundImage, FramesFit, HaveRoom, IsLaidOut, HaveCells};

/// Where the paths through code are sound, a frame begins on a path, and where it stands on one, each instruction and all silent work
/// leave it on a path. It has no more operands than the body's depth, and room for one that an instruction or an answer gives.
/// An instruction of a sound body finds what it takes, but for what soundness doesn't decide.
pub fn law_of_paths()
    ensures paths { (image : Image) (own : ℕ) (code : List Instr) (depth : ℕ) →
        ArePathsSound image own code depth → KeepsToPaths image own code depth }
    ensures found { (image : Image) (own : ℕ) (role : Role) (code : List Instr) (depth : ℕ) →
        IsSound image own role code depth → FindsAll image own code }
{}

/// In a sound image activities begin with frames that fit, each turn leaves frames that fit, as they do past work
/// that is left to the kernel, and frames that fit have room for all operands that they are to have.
pub fn law_of_frames()
    ensures first { (image : Image) → IsSoundImage image → FramesFit image (first_frames image) }
    ensures body { (image : Image) → IsSoundImage image → (mem : Memory) (o : ℕ) →
        FramesFit image (body_of image mem o) }
    ensures turn { (image : Image) → IsSoundImage image → (mem : Memory) (fs : Frames) →
        FramesFit image fs → FramesFit image (turn image mem fs).frames }
    ensures past { (image : Image) → IsSoundImage image → (mem : Memory) (fs : Frames) →
        FramesFit image fs →
        is_passed (turn image mem fs).left ≡ true →
        FramesFit image (past image (turn image mem fs).frames) }
    ensures opened { (image : Image) → IsSoundImage image → (fs : Frames) → FramesFit image fs →
        FramesFit image (opened fs) }
    ensures room { (image : Image) → IsSoundImage image → (fs : Frames) → FramesFit image fs →
        HaveRoom image fs }
{}

/// Where procedures name no more cells than they have, activities begin with frames that have the cells that their procedures name, and
/// so they do behind each turn, and past what is left to the kernel.
pub fn law_of_cells()
    ensures first { (image : Image) → IsLaidOut image → HaveCells image (first_frames image) }
    ensures body { (image : Image) → IsLaidOut image → (mem : Memory) (o : ℕ) →
        HaveCells image (body_of image mem o) }
    ensures turn { (image : Image) → IsLaidOut image → (mem : Memory) (fs : Frames) →
        HaveCells image fs → HaveCells image (turn image mem fs).frames }
    ensures past { (image : Image) → IsLaidOut image → (fs : Frames) → HaveCells image fs →
        HaveCells image (past image fs) }
{}
