// The rows of a run whose values are packed: 1 to 512, whether they are signed, and the kept code of their values' width.
ghost use Rattle.std.specs.Prelude.{◌≡◌, true, ◌≤◌, length};
ghost use Rattle.format.specs.Kept.{is_kept};

#[derive(Clone, Copy)]
pub(crate) struct PackedRows<'a> {
    pub rows: &'a [i64],
    pub signed: bool,
    pub code: u8,
    pub ghost some: { 1 ≤ length rows.now },
    pub ghost few: { length rows.now ≤ 512 },
    pub ghost low: { code ≤ 31 },
    pub ghost kept: { is_kept code ≡ true },
}
