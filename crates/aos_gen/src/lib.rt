//! The module that the command `gen` runs: pairs of a producer and a consumer, each with a buffer of one place between them.
//! `module_text` in `specs/Generated.antt` is its text.
#![tactic(auto)]

ghost use Rattle.std.specs.Prelude.{◌≡◌, ◌++◌, codes, decimal, IfOk, OnOk};
ghost use Rattle.aos_gen.specs.Generated.{file_name, front_text, behind_text, module_text};

use aos_base::NoMemory;
use itoa::Buffer;
use std::alloc::Global;

/// The name of its file.
pub fn file_name() -> &'static str
    ensures { result.now ≡ file_name }
{
    "Gen.Mod"
}

// Its text in front of the number of pairs.
fn front() -> &'static str
    ensures { result.now ≡ front_text }
{
    "MODULE Gen;
IMPORT Out;
CONST N = "
}

// Its text behind that number.
fn behind() -> &'static str
    ensures { result.now ≡ behind_text }
{
    "; K = 100;
TYPE
  Buffer = OBJECT
    VAR x, n: LONGINT;
    PROCEDURE Put(v: LONGINT);
    BEGIN {EXCLUSIVE} AWAIT(n = 0); x := v; n := 1 END Put;
    PROCEDURE Get(VAR v: LONGINT);
    BEGIN {EXCLUSIVE} AWAIT(n = 1); v := x; n := 0 END Get;
  END Buffer;
  Totals = OBJECT
    VAR sum, done: LONGINT;
    PROCEDURE Add(v: LONGINT);
    BEGIN {EXCLUSIVE} sum := sum + v; done := done + 1 END Add;
    PROCEDURE Wait;
    BEGIN {EXCLUSIVE} AWAIT(done = N) END Wait;
  END Totals;
  Producer = OBJECT
    VAR b: Buffer; i: LONGINT;
    PROCEDURE &Init(c: Buffer);
    BEGIN b := c END Init;
  BEGIN {ACTIVE}
    FOR i := 1 TO K DO b.Put(i) END
  END Producer;
  Consumer = OBJECT
    VAR b: Buffer; i, v, s: LONGINT;
    PROCEDURE &Init(c: Buffer);
    BEGIN b := c END Init;
  BEGIN {ACTIVE}
    FOR i := 1 TO K DO b.Get(v); s := s + v END;
    t.Add(s)
  END Consumer;
VAR t: Totals; b: Buffer; p: Producer; c: Consumer; j: LONGINT;
BEGIN
  NEW(t);
  FOR j := 1 TO N DO NEW(b); NEW(p, b); NEW(c, b) END;
  t.Wait;
  Out.Int(t.done, 0); Out.Char(\" \"); Out.Int(t.sum, 0); Out.Ln
END Gen.
"
}

fn put(text: &mut Vec<u8>, part: &str) -> Result<(), NoMemory>
    ensures { OnOk result (text.new.items ≡ text.old.items ++ part.now) }
{
    Ok(text.extend_from_slice(part.as_bytes())?)
}

/// Its text with so many pairs.
pub fn module_text(alloc: Global, pairs: u32) -> Result<Vec<u8>, NoMemory>
    ensures { IfOk result (λ text. text.items ≡ module_text pairs) }
{
    let mut buffer = Buffer::new();
    let mut text = Vec::new(alloc);
    put(&mut text, front())?;
    put(&mut text, buffer.format(pairs))?;
    put(&mut text, behind())?;
    Ok(text)
}
