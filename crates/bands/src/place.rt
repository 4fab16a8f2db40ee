// Where the bands of a reach stand.
ghost use Rattle.std.specs.Prelude.{◌+◌, ◌^◌, ◌<◌};

// Where their count stands on the sheet, and the count. No sheet is so long that reading from a place on it could pass the highest usize.
#[derive(Clone, Copy)]
pub struct Bands {
    pub at: usize,
    pub count: u32,
    ghost near: { at < 2 ^ 63 + 2 ^ 32 },
}
