// Lines and columns.

ghost use Rattle.std.specs.Prelude.{◌≡◌, ◌≤◌, ◌^◌, length};
ghost use Rattle.aos_scan.specs.Position.{position};

use aos_base::Pos;

/// The position of a place, from the position of one before it.
pub fn advance(text: &[u8], from: usize, to: usize, pos: Pos) -> Pos
    requires ordered { from ≤ to }
    requires within { to ≤ length text.now }
    requires size { length text.now ≤ 2 ^ 20 }
    requires place { pos ≡ position text.now from }
    ensures { result ≡ position text.now to }
{
    let mut line = pos.line;
    let mut col = pos.col;
    for i in from..to {
        if text[i] == b'\n' {
            line += 1;
            col = 1;
        } else {
            col += 1;
        }
    }
    Pos { line, col }
}
