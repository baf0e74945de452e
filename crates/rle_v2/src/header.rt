// The header that direct, delta and patched base runs begin with: 2 bits kind, 5 bits width code, 9 bits rows-1.
ghost use Rattle.std.specs.Prelude.{◌≡◌, ◌+◌, ◌≤◌};
ghost use Rattle.format.specs.Parse.{code_of, rows_less};

use format::RowNumber;

#[derive(Clone, Copy)]
pub(crate) struct Head {
    pub code: u8,
    pub rows: RowNumber,
}

pub(crate) fn two_bytes(first: u8, second: u8) -> Head
    ensures { (result.code ≡ code_of first) × (result.rows.rows ≡ rows_less first second + 1) × (result.rows.rows ≤ 512) }
{
    let rows = (first % 2) as usize * 256 + second as usize + 1;
    Head {
        code: first % 64 / 2,
        rows: RowNumber { rows },
    }
}
